// The questions of a described packet: its dwords, and for each the place of its entry, as `packet::parse` fills them. Each takes any book,
// dwords and places, and looks at no number but 27 and 28.
ghost use Rattle.std.specs.Prelude.{◌≡◌, ◌+◌, ◌*◌, ◌^◌};
ghost use Rattle.text.specs.Told.{maybe};
ghost use Rattle.refusal.specs.Told.{told, told_maybe};
ghost use Rattle.questions.specs.Described.{
  route_in,
  top_bit,
  cut,
  asked,
  adapter_in,
  address_in,
  size_in,
  uuid_in,
  FirstRange,
  type_in,
  field_in,
  field_at,
  field_with,
};

use crate::PacketType;
use crate::kinds::{is_reading, is_writing};
use book::Uuid;
use field::{Field, Place, field_of};
use packet::field::{Ask, named_in, range_in, value_in, wide};
use packet::numbers::is_xdomain_kind;
use packet::seek::{dword_at, first_asked, gather};
use refusal::Refusal;

// The first dword above the second.
pub fn route_in(dwords: &[u32]) -> Result<u64, Refusal>
    ensures { told result ≡ route_in dwords.now }
{
    if dwords.len() < 2 {
        return Err(Refusal::NoPacketRoute);
    }
    Ok(join(dwords[0], dwords[1]))
}

// One dword above another.
fn join(high: u32, low: u32) -> u64
    ensures { result ≡ high * 2 ^ 32 + low }
{
    high as u64 * 4_294_967_296 + low as u64
}

// The top bit of the route.
pub fn cm_in(dwords: &[u32]) -> Result<bool, Refusal>
    ensures { told result ≡ top_bit (route_in dwords.now) }
{
    let route = route_in(dwords)?;
    Ok(route / 9_223_372_036_854_775_808 % 2 == 1)
}

// The first bit range of that name, in the first dword that has one, and that dword.
fn first_range(book: &[u8], name: &[u8], dwords: &[u32], places: &[u32]) -> Option<(usize, u32)>
    ensures { FirstRange book.now dwords.now places.now name.now result }
{
    let i = first_asked(book, Ask::Holds, name, places, 0)?;
    let range = range_in(book, name, wide(dword_at(places, i)))?;
    Some((range, dword_at(dwords, i)))
}

// The value of the first bit range of that name, in the first dword that has one.
pub fn value_asked(book: &[u8], name: &[u8], dwords: &[u32], places: &[u32]) -> Option<u32>
    ensures { maybe result ≡ asked book.now dwords.now places.now name.now }
{
    let (range, dword) = first_range(book, name, dwords, places)?;
    Some(value_in(book, range, dword))
}

// The adapter number, cut to 8 bits.
pub fn adapter_in(book: &[u8], dwords: &[u32], places: &[u32]) -> Result<Option<u8>, Refusal>
    ensures { told_maybe result ≡ adapter_in book.now dwords.now places.now }
{
    let value = value_asked(book, b"Adapter Num", dwords, places);
    Ok(value.map(|v| (v % 256) as u8))
}

// The offset of an inter-domain packet, the address of any other.
pub fn address_in(
    kind: u8,
    book: &[u8],
    dwords: &[u32],
    places: &[u32],
) -> Result<Option<u16>, Refusal>
    ensures { told_maybe result ≡ address_in book.now dwords.now places.now kind }
{
    if is_xdomain_kind(kind) {
        return word_asked(book, b"Offset", dwords, places);
    }
    word_asked(book, b"Address", dwords, places)
}

// The size that the kind has, if it has one.
pub fn size_in(
    kind: u8,
    book: &[u8],
    dwords: &[u32],
    places: &[u32],
) -> Result<Option<u16>, Refusal>
    ensures { told_maybe result ≡ size_in book.now dwords.now places.now kind }
{
    if is_reading(kind) {
        return word_asked(book, b"Read Size", dwords, places);
    }
    if is_writing(kind) {
        return word_asked(book, b"Write Size", dwords, places);
    }
    if is_xdomain_kind(kind) {
        return word_asked(book, b"Properties Block Size", dwords, places);
    }
    Ok(None)
}

// The value of the first bit range of that name, cut to 16 bits.
fn word_asked(
    book: &[u8],
    name: &[u8],
    dwords: &[u32],
    places: &[u32],
) -> Result<Option<u16>, Refusal>
    ensures { told_maybe result ≡ cut 16 (asked book.now dwords.now places.now name.now) }
{
    let value = value_asked(book, name, dwords, places);
    Ok(value.map(|v| (v % 65_536) as u16))
}

// The values of the dwords of that name, if there are exactly four. A dword without a place, or a place without a dword, counts for nothing.
pub fn uuid_in(
    book: &[u8],
    name: &[u8],
    dwords: &[u32],
    places: &[u32],
) -> Result<Option<Uuid>, Refusal>
    ensures { told_maybe result ≡ uuid_in book.now dwords.now places.now name.now }
{
    Ok(gather(book, name, dwords, places))
}

// The packet type: of the first dword with such a range, whether its value has a name or not.
pub fn type_in(book: &[u8], dwords: &[u32], places: &[u32]) -> Result<Option<PacketType>, Refusal>
    ensures { told_maybe result ≡ type_in book.now dwords.now places.now }
{
    let Some((range, dword)) = first_range(book, b"Packet Type", dwords, places) else {
        return Ok(None);
    };
    let at = named_in(book, range, dword).ok_or(Refusal::UnnamedType)?;
    Ok(Some(PacketType {
        value: value_in(book, range, dword),
        name: Place { at },
    }))
}

// The field at an offset, where there is a dword.
pub fn field_at(
    kind: u8,
    book: &[u8],
    dwords: &[u32],
    places: &[u32],
    offset: u16,
) -> Result<Option<Field>, Refusal>
    ensures { told_maybe result ≡ field_at book.now dwords.now places.now kind offset }
{
    let i = offset as usize;
    if dwords.len() <= i {
        return Ok(None);
    }
    Ok(Some(field_in(kind, book, dwords, places, i)))
}

// The first field as asked.
pub fn field_with(
    ask: Ask,
    kind: u8,
    book: &[u8],
    name: &[u8],
    dwords: &[u32],
    places: &[u32],
) -> Result<Option<Field>, Refusal>
    ensures { told_maybe result ≡ field_with book.now dwords.now places.now ask kind name.now }
{
    let found = first_asked(book, ask, name, places, 0);
    Ok(found.map(|i| field_in(kind, book, dwords, places, i)))
}

// The field of a dword, its offset cut to 16 bits.
fn field_in(kind: u8, book: &[u8], dwords: &[u32], places: &[u32], i: usize) -> Field
    ensures { result ≡ field_in book.now dwords.now places.now kind i }
{
    let offset = (i % 65_536) as u16;
    field_of(
        kind,
        book,
        offset,
        dword_at(dwords, i),
        wide(dword_at(places, i)),
    )
}
