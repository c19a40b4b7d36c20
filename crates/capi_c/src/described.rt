// The questions of a described packet: its dwords, and for each the place of its entry, as `ck_packet` fills them.
// C's interface: one symbol a name, and a kind is a number. What symbols share is in `capi` and below it.
ghost use Rattle.std.specs.Prelude.{◌≡◌};
ghost use Rattle.questions.specs.Described.{route_in, top_bit, asked, adapter_in, address_in, size_in, uuid_in, type_in, field_at, field_with};
ghost use Rattle.capi.specs.Told.{value_by, as_number, uuid_by, type_by, field_by};

use capi::told::{FieldTold, TypeTold, UuidTold, ValueTold};
use packet::field::Ask;

#[unsafe(no_mangle)]
pub extern "C" fn ck_described_route(dwords: &[u32]) -> ValueTold
    ensures { result ≡ value_by (route_in dwords.now) }
{
    capi::described::ck_described_route(dwords)
}

#[unsafe(no_mangle)]
pub extern "C" fn ck_described_cm(dwords: &[u32]) -> ValueTold
    ensures { result ≡ value_by (as_number (top_bit (route_in dwords.now))) }
{
    capi::described::ck_described_cm(dwords)
}

#[unsafe(no_mangle)]
pub extern "C" fn ck_described_value(
    book: &[u8],
    dwords: &[u32],
    places: &[u32],
    name: &[u8],
) -> ValueTold
    ensures { result ≡ value_by (asked book.now dwords.now places.now name.now) }
{
    capi::described::ck_described_value(book, dwords, places, name)
}

#[unsafe(no_mangle)]
pub extern "C" fn ck_described_adapter_num(book: &[u8], dwords: &[u32], places: &[u32]) -> ValueTold
    ensures { result ≡ value_by (adapter_in book.now dwords.now places.now) }
{
    capi::described::ck_described_adapter_num(book, dwords, places)
}

#[unsafe(no_mangle)]
pub extern "C" fn ck_described_data_address(
    kind: u8,
    book: &[u8],
    dwords: &[u32],
    places: &[u32],
) -> ValueTold
    ensures { result ≡ value_by (address_in book.now dwords.now places.now kind) }
{
    capi::described::ck_described_data_address(kind, book, dwords, places)
}

#[unsafe(no_mangle)]
pub extern "C" fn ck_described_data_size(
    kind: u8,
    book: &[u8],
    dwords: &[u32],
    places: &[u32],
) -> ValueTold
    ensures { result ≡ value_by (size_in book.now dwords.now places.now kind) }
{
    capi::described::ck_described_data_size(kind, book, dwords, places)
}

#[unsafe(no_mangle)]
pub extern "C" fn ck_described_uuid_by_name(
    book: &[u8],
    dwords: &[u32],
    places: &[u32],
    name: &[u8],
) -> UuidTold
    ensures { result ≡ uuid_by (uuid_in book.now dwords.now places.now name.now) }
{
    capi::described::ck_described_uuid_by_name(book, dwords, places, name)
}

#[unsafe(no_mangle)]
pub extern "C" fn ck_described_type(book: &[u8], dwords: &[u32], places: &[u32]) -> TypeTold
    ensures { result ≡ type_by (type_in book.now dwords.now places.now) }
{
    capi::described::ck_described_type(book, dwords, places)
}

#[unsafe(no_mangle)]
pub extern "C" fn ck_described_field(
    kind: u8,
    book: &[u8],
    dwords: &[u32],
    places: &[u32],
    offset: u16,
) -> FieldTold
    ensures { result ≡ field_by (field_at book.now dwords.now places.now kind offset) }
{
    capi::described::ck_described_field(kind, book, dwords, places, offset)
}

#[unsafe(no_mangle)]
pub extern "C" fn ck_described_field_by_name(
    kind: u8,
    book: &[u8],
    dwords: &[u32],
    places: &[u32],
    name: &[u8],
) -> FieldTold
    ensures { result ≡ field_by (field_with book.now dwords.now places.now Ask.Named kind name.now) }
{
    capi::described::ck_described_field_by_name(kind, book, dwords, places, name)
}

#[unsafe(no_mangle)]
pub extern "C" fn ck_described_field_by_range(
    kind: u8,
    book: &[u8],
    dwords: &[u32],
    places: &[u32],
    name: &[u8],
) -> FieldTold
    ensures { result ≡ field_by (field_with book.now dwords.now places.now Ask.Holds kind name.now) }
{
    capi::described::ck_described_field_by_range(kind, book, dwords, places, name)
}
