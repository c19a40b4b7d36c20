// One walk for every search: the first field from a place on that is wanted.
ghost use Rattle.std.specs.Prelude.{◌+◌, ◌≡◌, ◌&&◌, eqb};
ghost use Rattle.text.specs.Part.{OwnText};
ghost use Rattle.book.specs.Search.{
  after,
  name_at,
  type_at,
  uuid_at,
  tag_of,
  fits,
  first_wanted,
  has_wanted,
  table_want,
};

use crate::Uuid;
use crate::field::{after, body_at};
use tlv::Step;

// What a search is for. A key goes with it where a text must be the same, and an empty key is "no type".
// Kept an enum and no closure: what may stand once only is read from a field (`table_want`), and the theorems speak of what is sought.
#[derive(Clone, Copy)]
pub enum Want {
    // The control table of a kind.
    Kind(u8),
    // The table of a UUID.
    Uuid(Uuid),
    // An entry of an offset, whatever its type.
    Offset(u16),
    // An entry of an offset whose type is the key.
    Typed(u16),
    // A bit range whose name is the key.
    Range,
    // A value of a bit range.
    Value(u32),
}

// The first field from a place on that is wanted, by the place of its tag byte.
pub fn first(s: &[u8], start: usize, want: Want, key: &[u8]) -> Option<usize>
    ensures { result ≡ first_wanted want key.now s.now start }
{
    let mut at = start;
    loop {
        let step = tlv::field_at(s, at);
        let Step::Field { tag, from, to } = step else {
            return None;
        };
        if is_wanted(&s[..to], want, key, tag, from) {
            return Some(at);
        }
        at = to;
    }
}

// Is one of the fields from a place on wanted?
pub fn has(s: &[u8], start: usize, want: Want, key: &[u8]) -> bool
    ensures { result ≡ has_wanted want key.now s.now start }
{
    first(s, start, want, key).is_some()
}

// Is this field wanted? The text ends where the field does.
#[tactic(auto)]
fn is_wanted(s: &[u8], want: Want, key: &[u8], tag: u8, from: usize) -> bool
    ensures { result ≡ (eqb tag (tag_of want) && fits want key.now s.now from) }
{
    tag == tag_of(want) && fits(s, want, key, from)
}

// Is this field wanted, if it has the tag?
fn fits(s: &[u8], want: Want, key: &[u8], from: usize) -> bool
    ensures { result ≡ fits want key.now s.now from }
{
    match want {
        Want::Kind(kind) => tlv::byte_at(s, from) == kind,
        Want::Uuid(uuid) => uuid_at(s, from) == uuid,
        Want::Offset(offset) => tlv::two_at(s, from) == offset,
        Want::Typed(offset) => tlv::two_at(s, from) == offset && type_at(s, from) == key,
        Want::Range => name_at(s, from) == key,
        Want::Value(value) => tlv::four_at(s, from) == value,
    }
}

// The tag of what is wanted.
fn tag_of(want: Want) -> u8
    ensures { result ≡ tag_of want }
{
    match want {
        Want::Kind(_) => 1,
        Want::Uuid(_) => 2,
        Want::Offset(_) | Want::Typed(_) => 3,
        Want::Range => 6,
        Want::Value(_) => 7,
    }
}

// The name of an entry or a range whose body starts at the place, empty where it has none.
pub fn name_at(s: &[u8], from: usize) -> &[u8]
    ensures { OwnText s.entry (from + 2 + 3) (name_at s.now from) result }
{
    if s.len() <= from {
        return &s[..0];
    }
    body_at(s, 4, from + 2)
}

// The type of an entry whose body starts at the place, empty where it has none.
pub fn type_at(s: &[u8], from: usize) -> &[u8]
    ensures { OwnText s.entry (after 4 s.now (from + 2) + 3) (type_at s.now from) result }
{
    if s.len() <= from {
        return &s[..0];
    }
    body_at(s, 5, after(s, 4, from + 2))
}

// The four dwords of a UUID from the place on; a byte past the end counts as 0.
pub fn uuid_at(s: &[u8], from: usize) -> Uuid
    ensures { result ≡ uuid_at s.now from }
{
    if s.len() <= from {
        return Uuid::ZERO;
    }
    Uuid {
        first: tlv::four_at(s, from),
        second: tlv::four_at(s, from + 4),
        third: tlv::four_at(s, from + 8),
        fourth: tlv::four_at(s, from + 12),
    }
}

// Whose table a field is: of a kind by tag 1, else of a UUID.
pub fn table_want(s: &[u8], tag: u8, from: usize) -> Want
    ensures { result ≡ table_want s.now tag from }
{
    if tag == 1 {
        return Want::Kind(tlv::byte_at(s, from));
    }
    Want::Uuid(uuid_at(s, from))
}
