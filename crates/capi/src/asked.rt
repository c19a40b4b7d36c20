// The questions of a packet, each of a kind, a book and dwords, with numbers 20 to 25 before any answer. Every call checks the book; the calls of
// `described` do not.
// C's interface: a kind is a number, and any is taken.
ghost use Rattle.std.specs.Prelude.{◌≡◌, length};
ghost use Rattle.questions.specs.Questions.{
  route_of,
  cm_of,
  adapter_of,
  address_of,
  size_of,
  start_of,
  view_of,
  read_of,
  write_of,
  xdomain_of,
  uuid_answer,
  uuid_by_name,
  type_of,
  type_name,
  field_by_offset,
  field_by as field_asked,
};
ghost use Rattle.capi.specs.Told.{value_by, as_number, uuid_by, type_by, field_by, Copied};

use crate::fields::copy_name;
use crate::told::{FieldTold, TypeTold, UuidTold, ValueTold};
use packet::field::Ask;

// The first dword above the second; 27 if there are fewer than two.
pub fn ck_packet_route(kind: u8, book: &[u8], dwords: &[u32]) -> ValueTold
    ensures { result ≡ value_by (route_of kind book.now dwords.now) }
{
    ValueTold::of(questions::route(kind, book, dwords))
}

// The top bit of the route.
pub fn ck_packet_cm(kind: u8, book: &[u8], dwords: &[u32]) -> ValueTold
    ensures { result ≡ value_by (as_number (cm_of kind book.now dwords.now)) }
{
    ValueTold::of(questions::cm(kind, book, dwords))
}

// The adapter number, cut to 8 bits.
pub fn ck_packet_adapter_num(kind: u8, book: &[u8], dwords: &[u32]) -> ValueTold
    ensures { result ≡ value_by (adapter_of kind book.now dwords.now) }
{
    questions::adapter_num(kind, book, dwords).into()
}

// The address, or for kinds 8 and 9 the offset, cut to 16 bits.
pub fn ck_packet_data_address(kind: u8, book: &[u8], dwords: &[u32]) -> ValueTold
    ensures { result ≡ value_by (address_of kind book.now dwords.now) }
{
    questions::data_address(kind, book, dwords).into()
}

// The read size, write size or properties block size, by the kind, cut to 16 bits.
pub fn ck_packet_data_size(kind: u8, book: &[u8], dwords: &[u32]) -> ValueTold
    ensures { result ≡ value_by (size_of kind book.now dwords.now) }
{
    questions::data_size(kind, book, dwords).into()
}

// Where the data view starts.
pub fn ck_packet_data_start(kind: u8, book: &[u8], dwords: &[u32]) -> ValueTold
    ensures { result ≡ value_by (start_of kind book.now dwords.now) }
{
    questions::data_start(kind, book, dwords).into()
}

// How many dwords the data view has: they are the caller's last. 0 also where there is no view, and for a refusal.
pub fn ck_packet_data(kind: u8, book: &[u8], dwords: &[u32]) -> usize
    ensures { result ≡ length (view_of kind book.now dwords.now) }
{
    questions::data(kind, book, dwords).len()
}

// Is it a read packet?
pub fn ck_packet_is_read(kind: u8, book: &[u8], dwords: &[u32]) -> ValueTold
    ensures { result ≡ value_by (as_number (read_of kind book.now dwords.now)) }
{
    ValueTold::of(questions::is_read(kind, book, dwords))
}

// Is it a write packet?
pub fn ck_packet_is_write(kind: u8, book: &[u8], dwords: &[u32]) -> ValueTold
    ensures { result ≡ value_by (as_number (write_of kind book.now dwords.now)) }
{
    ValueTold::of(questions::is_write(kind, book, dwords))
}

// Is it an inter-domain packet?
pub fn ck_packet_is_xdomain(kind: u8, book: &[u8], dwords: &[u32]) -> ValueTold
    ensures { result ≡ value_by (as_number (xdomain_of kind book.now dwords.now)) }
{
    ValueTold::of(questions::is_xdomain(kind, book, dwords))
}

// The UUID that step 2 gathered.
pub fn ck_packet_uuid(kind: u8, book: &[u8], dwords: &[u32]) -> UuidTold
    ensures { result ≡ uuid_by (uuid_answer kind book.now dwords.now) }
{
    questions::uuid(kind, book, dwords).into()
}

// The values of the fields of that name, if there are exactly four.
pub fn ck_packet_uuid_by_name(kind: u8, book: &[u8], dwords: &[u32], name: &[u8]) -> UuidTold
    ensures { result ≡ uuid_by (uuid_by_name kind book.now dwords.now name.now) }
{
    questions::uuid_by_name(kind, book, dwords, name).into()
}

// The packet type; 28 where its value has no name.
pub fn ck_packet_type(kind: u8, book: &[u8], dwords: &[u32]) -> TypeTold
    ensures { result ≡ type_by (type_of kind book.now dwords.now) }
{
    questions::packet_type(kind, book, dwords).into()
}

// The packet type's name into the first bytes of the buffer, if all of it fits. The answer is its length, 0 where there is none.
pub fn ck_packet_type_name(kind: u8, book: &[u8], dwords: &[u32], out: &mut [u8]) -> usize
    ensures { Copied (type_name kind book.now dwords.now) out.old out.new result }
{
    copy_name(questions::packet_type_name(kind, book, dwords), out)
}

// The field at an offset.
pub fn ck_packet_field(kind: u8, book: &[u8], dwords: &[u32], offset: u16) -> FieldTold
    ensures { result ≡ field_by (field_by_offset kind book.now dwords.now offset) }
{
    questions::field_by_offset(kind, book, dwords, offset).into()
}

// The first field of that name.
pub fn ck_packet_field_by_name(kind: u8, book: &[u8], dwords: &[u32], name: &[u8]) -> FieldTold
    ensures { result ≡ field_by (field_asked kind book.now dwords.now Ask.Named name.now) }
{
    questions::field_by_name(kind, book, dwords, name).into()
}

// The first field with a bit range of that name.
pub fn ck_packet_field_by_range(kind: u8, book: &[u8], dwords: &[u32], name: &[u8]) -> FieldTold
    ensures { result ≡ field_by (field_asked kind book.now dwords.now Ask.Holds name.now) }
{
    questions::field_by_bitfield_name(kind, book, dwords, name).into()
}
