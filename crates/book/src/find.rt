// The finders. A table, an entry, a bit range or a value is the place of its tag byte in the book; nothing but a table stands at 0.
// Each takes any book and any place; on a checked book each answers the one that document 01 names.
ghost use Rattle.std.specs.Prelude.{◌≡◌, ◌+◌, ◌≤◌, ◌<◌, length, get_or};
ghost use Rattle.text.specs.Part.{OwnText};
ghost use Rattle.tlv.specs.Number.{Read};
ghost use Rattle.tlv.specs.Reading.{parts};
ghost use Rattle.book.specs.Finders.{
  place_of,
  Locates,
  inner_from,
  seek_of,
  entry_count,
  nth_place,
  nth_range,
  control_table,
  uuid_table,
  entry_of_offset,
  entry_of_type,
  range_of_name,
  value_of_number,
  name_of,
  type_of,
  OwnName,
  type_place,
};

use crate::Uuid;
use crate::field::after;
use crate::seek::{Want, first, name_at, type_at};
use tlv::Step;

// Each finder names what it seeks; what they share is `first` and `seek`.
// The control table of a kind.
pub fn control_table(book: &[u8], kind: u8) -> Option<usize>
    ensures { result ≡ control_table book.now kind }
{
    first(book, 0, Want::Kind(kind), b"")
}

// The table of a UUID. The header table is that of the all-zero UUID.
pub fn uuid_table(book: &[u8], uuid: Uuid) -> Option<usize>
    ensures { result ≡ uuid_table book.now uuid }
{
    first(book, 0, Want::Uuid(uuid), b"")
}

// The first entry of an offset in a table, whatever its type.
pub fn entry_of_offset(book: &[u8], table: usize, offset: u16) -> Option<usize>
    ensures { Locates (length book.now) (entry_of_offset book.now table offset) result }
{
    seek(book, table, Want::Offset(offset), b"")
}

// The first entry of an offset and a type in a table; an empty type asks for the untyped entry.
pub fn entry_of_type(book: &[u8], table: usize, offset: u16, name: &[u8]) -> Option<usize>
    ensures { Locates (length book.now) (entry_of_type book.now table offset name.now) result }
{
    seek(book, table, Want::Typed(offset), name)
}

// The first bit range of a name in an entry.
pub fn range_of_name(book: &[u8], entry: usize, name: &[u8]) -> Option<usize>
    ensures { Locates (length book.now) (range_of_name book.now entry name.now) result }
{
    seek(book, entry, Want::Range, name)
}

// The value of a number in a bit range.
pub fn value_of_number(book: &[u8], range: usize, number: u32) -> Option<usize>
    ensures { Locates (length book.now) (value_of_number book.now range number) result }
{
    seek(book, range, Want::Value(number), b"")
}

// How many entries a table has, of every offset and type.
pub fn count_entries(book: &[u8], table: usize) -> usize
    ensures { result ≡ entry_count book.now table }
{
    let Step::Field { tag, from, to } = tlv::field_at(book, table) else {
        return 0;
    };
    let body = &book[..to];
    count(body, inner(body, tag, from))
}

// The bit range of an entry with `k` before it.
pub fn nth_range(book: &[u8], entry: usize, k: usize) -> Option<usize>
    ensures { Locates (length book.now) (nth_range book.now entry k) result }
{
    let Step::Field { tag, from, to } = tlv::field_at(book, entry) else {
        return None;
    };
    let body = &book[..to];
    nth(body, inner(body, tag, from), k)
}

// The name of an entry, a bit range or a value: the caller's own bytes of the book, and an empty part at its start where there is none.
pub fn name_of(book: &[u8], place: usize) -> &[u8]
    ensures { OwnName book.entry place (name_of book.now place) result }
{
    let Step::Field { tag, from, to } = tlv::field_at(book, place) else {
        return &book[..0];
    };
    let body = &book[..to];
    if tag != 7 {
        return name_at(body, from);
    }
    if to - from < 5 {
        return &book[..0];
    }
    &body[from + 4..]
}

// The packet type of an entry, likewise.
pub fn type_of(book: &[u8], entry: usize) -> &[u8]
    ensures { OwnText book.entry (type_place book.now entry) (type_of book.now entry) result }
{
    let Step::Field { from, to, .. } = tlv::field_at(book, entry) else {
        return &book[..0];
    };
    type_at(&book[..to], from)
}

// The offset of an entry.
pub fn offset_of(book: &[u8], entry: usize) -> u16
    ensures { Read 2 book.now (entry + 3) result }
{
    if book.len() <= entry {
        return 0;
    }
    tlv::two_at(book, entry + 3)
}

// Two places of one byte each: one function over the place would say no less at each call.
// The low bit of a bit range.
pub fn low_of(book: &[u8], range: usize) -> u8
    ensures { result ≡ get_or book.now (range + 3) 0 }
{
    if book.len() <= range {
        return 0;
    }
    tlv::byte_at(book, range + 3)
}

// The high bit of a bit range.
pub fn high_of(book: &[u8], range: usize) -> u8
    ensures { result ≡ get_or book.now (range + 4) 0 }
{
    if book.len() <= range {
        return 0;
    }
    tlv::byte_at(book, range + 4)
}

// The number of a value.
pub fn number_of(book: &[u8], value: usize) -> u32
    ensures { Read 4 book.now (value + 3) result }
{
    if book.len() <= value {
        return 0;
    }
    tlv::four_at(book, value + 3)
}

// The first wanted field inside the field at the place.
fn seek(book: &[u8], place: usize, want: Want, key: &[u8]) -> Option<usize>
    ensures { Locates (length book.now) (place_of (seek_of want key.now book.now place)) result }
{
    let Step::Field { tag, from, to } = tlv::field_at(book, place) else {
        return None;
    };
    let body = &book[..to];
    first(body, inner(body, tag, from), want, key)
}

// Where the fields inside a body start: behind kind, UUID, name and type, or name, by the tag. Asked for: a start within the text, which a body
// that `field_at` gave has.
#[tactic(auto, unfolding(crate::specs::Finders::inner_from))]
pub fn inner(s: &[u8], tag: u8, from: usize) -> usize
    requires { from ≤ length s.now }
    ensures { result ≡ inner_from tag s.now from }
{
    match tag {
        1 => from + 1,
        2 => from + 16,
        3 => after(s, 5, after(s, 4, from + 2)),
        6 => after(s, 4, from + 2),
        _ => s.len(),
    }
}

// How many whole fields stand from the place on.
fn count(s: &[u8], start: usize) -> usize
    ensures { result ≡ length (parts s.now start) }
{
    let mut n: usize = 0;
    let mut at = start;
    while let Step::Field { to, .. } = tlv::field_at(s, at) {
        n += 1;
        at = to;
    }
    n
}

// The field with `k` before it from the place on.
fn nth(s: &[u8], start: usize, k: usize) -> Option<usize>
    requires { 0 < start }
    ensures { Locates (length s.now) (nth_place k (parts s.now start)) result }
{
    let mut left = k;
    let mut at = start;
    while let Step::Field { to, .. } = tlv::field_at(s, at) {
        if left == 0 {
            return Some(at);
        }
        left -= 1;
        at = to;
    }
    None
}
