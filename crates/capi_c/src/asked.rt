// The questions of a packet, each of a kind, a book and dwords. Every call checks the book; the calls of `described` do not.
// C's interface: one symbol a name, and a kind is a number. What symbols share is in `capi` and below it.
ghost use Rattle.std.specs.Prelude.{◌≡◌, length};
ghost use Rattle.questions.specs.Questions.{route_of, cm_of, adapter_of, address_of, size_of, start_of, view_of, read_of, write_of, xdomain_of, uuid_answer, uuid_by_name, type_of, type_name, field_by_offset, field_by as field_asked};
ghost use Rattle.capi.specs.Told.{value_by, as_number, uuid_by, type_by, field_by, Copied};

use capi::told::{FieldTold, TypeTold, UuidTold, ValueTold};
use packet::field::Ask;

#[unsafe(no_mangle)]
pub extern "C" fn ck_packet_route(kind: u8, book: &[u8], dwords: &[u32]) -> ValueTold
    ensures { result ≡ value_by (route_of kind book.now dwords.now) }
{
    capi::asked::ck_packet_route(kind, book, dwords)
}

#[unsafe(no_mangle)]
pub extern "C" fn ck_packet_cm(kind: u8, book: &[u8], dwords: &[u32]) -> ValueTold
    ensures { result ≡ value_by (as_number (cm_of kind book.now dwords.now)) }
{
    capi::asked::ck_packet_cm(kind, book, dwords)
}

#[unsafe(no_mangle)]
pub extern "C" fn ck_packet_adapter_num(kind: u8, book: &[u8], dwords: &[u32]) -> ValueTold
    ensures { result ≡ value_by (adapter_of kind book.now dwords.now) }
{
    capi::asked::ck_packet_adapter_num(kind, book, dwords)
}

#[unsafe(no_mangle)]
pub extern "C" fn ck_packet_data_address(kind: u8, book: &[u8], dwords: &[u32]) -> ValueTold
    ensures { result ≡ value_by (address_of kind book.now dwords.now) }
{
    capi::asked::ck_packet_data_address(kind, book, dwords)
}

#[unsafe(no_mangle)]
pub extern "C" fn ck_packet_data_size(kind: u8, book: &[u8], dwords: &[u32]) -> ValueTold
    ensures { result ≡ value_by (size_of kind book.now dwords.now) }
{
    capi::asked::ck_packet_data_size(kind, book, dwords)
}

#[unsafe(no_mangle)]
pub extern "C" fn ck_packet_data_start(kind: u8, book: &[u8], dwords: &[u32]) -> ValueTold
    ensures { result ≡ value_by (start_of kind book.now dwords.now) }
{
    capi::asked::ck_packet_data_start(kind, book, dwords)
}

#[unsafe(no_mangle)]
pub extern "C" fn ck_packet_data(kind: u8, book: &[u8], dwords: &[u32]) -> usize
    ensures { result ≡ length (view_of kind book.now dwords.now) }
{
    capi::asked::ck_packet_data(kind, book, dwords)
}

#[unsafe(no_mangle)]
pub extern "C" fn ck_packet_is_read(kind: u8, book: &[u8], dwords: &[u32]) -> ValueTold
    ensures { result ≡ value_by (as_number (read_of kind book.now dwords.now)) }
{
    capi::asked::ck_packet_is_read(kind, book, dwords)
}

#[unsafe(no_mangle)]
pub extern "C" fn ck_packet_is_write(kind: u8, book: &[u8], dwords: &[u32]) -> ValueTold
    ensures { result ≡ value_by (as_number (write_of kind book.now dwords.now)) }
{
    capi::asked::ck_packet_is_write(kind, book, dwords)
}

#[unsafe(no_mangle)]
pub extern "C" fn ck_packet_is_xdomain(kind: u8, book: &[u8], dwords: &[u32]) -> ValueTold
    ensures { result ≡ value_by (as_number (xdomain_of kind book.now dwords.now)) }
{
    capi::asked::ck_packet_is_xdomain(kind, book, dwords)
}

#[unsafe(no_mangle)]
pub extern "C" fn ck_packet_uuid(kind: u8, book: &[u8], dwords: &[u32]) -> UuidTold
    ensures { result ≡ uuid_by (uuid_answer kind book.now dwords.now) }
{
    capi::asked::ck_packet_uuid(kind, book, dwords)
}

#[unsafe(no_mangle)]
pub extern "C" fn ck_packet_uuid_by_name(
    kind: u8,
    book: &[u8],
    dwords: &[u32],
    name: &[u8],
) -> UuidTold
    ensures { result ≡ uuid_by (uuid_by_name kind book.now dwords.now name.now) }
{
    capi::asked::ck_packet_uuid_by_name(kind, book, dwords, name)
}

#[unsafe(no_mangle)]
pub extern "C" fn ck_packet_type(kind: u8, book: &[u8], dwords: &[u32]) -> TypeTold
    ensures { result ≡ type_by (type_of kind book.now dwords.now) }
{
    capi::asked::ck_packet_type(kind, book, dwords)
}

#[unsafe(no_mangle)]
pub extern "C" fn ck_packet_type_name(
    kind: u8,
    book: &[u8],
    dwords: &[u32],
    out: &mut [u8],
) -> usize
    ensures { Copied (type_name kind book.now dwords.now) out.old out.new result }
{
    capi::asked::ck_packet_type_name(kind, book, dwords, out)
}

#[unsafe(no_mangle)]
pub extern "C" fn ck_packet_field(kind: u8, book: &[u8], dwords: &[u32], offset: u16) -> FieldTold
    ensures { result ≡ field_by (field_by_offset kind book.now dwords.now offset) }
{
    capi::asked::ck_packet_field(kind, book, dwords, offset)
}

#[unsafe(no_mangle)]
pub extern "C" fn ck_packet_field_by_name(
    kind: u8,
    book: &[u8],
    dwords: &[u32],
    name: &[u8],
) -> FieldTold
    ensures { result ≡ field_by (field_asked kind book.now dwords.now Ask.Named name.now) }
{
    capi::asked::ck_packet_field_by_name(kind, book, dwords, name)
}

#[unsafe(no_mangle)]
pub extern "C" fn ck_packet_field_by_range(
    kind: u8,
    book: &[u8],
    dwords: &[u32],
    name: &[u8],
) -> FieldTold
    ensures { result ≡ field_by (field_asked kind book.now dwords.now Ask.Holds name.now) }
{
    capi::asked::ck_packet_field_by_range(kind, book, dwords, name)
}
