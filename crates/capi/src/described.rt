// The questions of a described packet: its dwords, and for each the place of its entry, as `ck_packet` fills them. No call checks the book, so it
// is checked once for all of them; each takes any book, dwords and places all the same.
// C's interface: a kind is a number, and any is taken.
ghost use Rattle.std.specs.Prelude.{◌≡◌};
ghost use Rattle.questions.specs.Described.{route_in, top_bit, asked, adapter_in, address_in, size_in, uuid_in, type_in, field_at, field_with};
ghost use Rattle.capi.specs.Told.{value_by, as_number, uuid_by, type_by, field_by};

use crate::told::{FieldTold, TypeTold, UuidTold, ValueTold};
use packet::field::Ask;
use questions::described;

// The first dword above the second; 27 if there are fewer than two.
pub fn ck_described_route(dwords: &[u32]) -> ValueTold
    ensures { result ≡ value_by (route_in dwords.now) }
{
    ValueTold::of(described::route_in(dwords))
}

// The top bit of the route.
pub fn ck_described_cm(dwords: &[u32]) -> ValueTold
    ensures { result ≡ value_by (as_number (top_bit (route_in dwords.now))) }
{
    ValueTold::of(described::cm_in(dwords))
}

// The value of the first bit range of that name.
pub fn ck_described_value(book: &[u8], dwords: &[u32], places: &[u32], name: &[u8]) -> ValueTold
    ensures { result ≡ value_by (asked book.now dwords.now places.now name.now) }
{
    Ok(described::value_asked(book, name, dwords, places)).into()
}

// The adapter number, cut to 8 bits.
pub fn ck_described_adapter_num(book: &[u8], dwords: &[u32], places: &[u32]) -> ValueTold
    ensures { result ≡ value_by (adapter_in book.now dwords.now places.now) }
{
    described::adapter_in(book, dwords, places).into()
}

// The address, or for kinds 8 and 9 the offset, cut to 16 bits.
pub fn ck_described_data_address(kind: u8, book: &[u8], dwords: &[u32], places: &[u32]) -> ValueTold
    ensures { result ≡ value_by (address_in book.now dwords.now places.now kind) }
{
    described::address_in(kind, book, dwords, places).into()
}

// The size that the kind has, cut to 16 bits.
pub fn ck_described_data_size(kind: u8, book: &[u8], dwords: &[u32], places: &[u32]) -> ValueTold
    ensures { result ≡ value_by (size_in book.now dwords.now places.now kind) }
{
    described::size_in(kind, book, dwords, places).into()
}

// The values of the dwords of that name, if there are exactly four.
pub fn ck_described_uuid_by_name(
    book: &[u8],
    dwords: &[u32],
    places: &[u32],
    name: &[u8],
) -> UuidTold
    ensures { result ≡ uuid_by (uuid_in book.now dwords.now places.now name.now) }
{
    described::uuid_in(book, name, dwords, places).into()
}

// The packet type; 28 where its value has no name.
pub fn ck_described_type(book: &[u8], dwords: &[u32], places: &[u32]) -> TypeTold
    ensures { result ≡ type_by (type_in book.now dwords.now places.now) }
{
    described::type_in(book, dwords, places).into()
}

// The field at an offset.
pub fn ck_described_field(
    kind: u8,
    book: &[u8],
    dwords: &[u32],
    places: &[u32],
    offset: u16,
) -> FieldTold
    ensures { result ≡ field_by (field_at book.now dwords.now places.now kind offset) }
{
    described::field_at(kind, book, dwords, places, offset).into()
}

// The first field of that name.
pub fn ck_described_field_by_name(
    kind: u8,
    book: &[u8],
    dwords: &[u32],
    places: &[u32],
    name: &[u8],
) -> FieldTold
    ensures { result ≡ field_by (field_with book.now dwords.now places.now Ask.Named kind name.now) }
{
    described::field_with(Ask::Named, kind, book, name, dwords, places).into()
}

// The first field with a bit range of that name.
pub fn ck_described_field_by_range(
    kind: u8,
    book: &[u8],
    dwords: &[u32],
    places: &[u32],
    name: &[u8],
) -> FieldTold
    ensures { result ≡ field_by (field_with book.now dwords.now places.now Ask.Holds kind name.now) }
{
    described::field_with(Ask::Holds, kind, book, name, dwords, places).into()
}
