// The grammar of the book, level by level. Each function is lent the text up to the end of the field that it judges, so that
// "fills exactly" is "up to the end", and every place is a place in the book.
ghost use Rattle.std.specs.Prelude.{◌≡◌, ◌&&◌, Bool, take};
ghost use Rattle.tlv.specs.Reading.{Part, Stands, filled};
ghost use Rattle.book.specs.Search.{has_wanted};
ghost use Rattle.book.specs.Reading.{
  tables_fill,
  table_body,
  entries_fill,
  entry_body,
  optional_name,
  ranges_fill,
  range_body,
  values_fill,
  value_body,
};

use crate::field::{after, body_at, is_name};
use crate::seek::{Want, has, table_want, type_at};
use crate::seen::{WORDS, is_marked, mark};
use tlv::Step;

// Fields fill the text from a place on, and each is good. A field is lent to the test as the text up to its end, with its tag and the
// place of its body.
fn fills<F: Fn(&[u8], u8, usize) -> bool>(s: &[u8], start: usize, good: F) -> bool
    requires { F.IsAlwaysCallable good }
    ensures { (ok : Part → Bool)
        → ((p : Part) (b : _) (t : _) → Stands s.now p → b.now ≡ take p.to s.now → F.post good b p.tag p.from t → t ≡ ok p)
        → result ≡ filled ok s.now start }
{
    let mut at = start;
    loop {
        match tlv::field_at(s, at) {
            Step::Field { tag, from, to } => {
                if !good(&s[..to], tag, from) {
                    return false;
                }
                at = to;
            }
            Step::End => return true,
            Step::Stray | Step::Overrun => return false,
        }
    }
}

// Tables fill the book, none of them twice.
pub fn tables(s: &[u8]) -> bool
    ensures { result ≡ tables_fill s.now 0 }
{
    fills(
        s,
        0,
        |body, tag, from| table(body, tag, from)
            && !has(s, body.len(), table_want(body, tag, from), b""),
    )
}

// Tag 1: a kind byte 1 to 12, then entries. Tag 2: four dwords of a UUID, then entries.
#[tactic(auto, unfolding(crate::specs::Reading::table_body, crate::specs::Reading::control_body, crate::specs::Reading::uuid_body))]
fn table(s: &[u8], tag: u8, from: usize) -> bool
    ensures { result ≡ table_body tag s.now from }
{
    if s.len() <= from {
        return false;
    }
    match tag {
        1 => 1 <= s[from] && s[from] <= 12 && entries(s, from + 1),
        2 => 16 <= s.len() - from && entries(s, from + 16),
        _ => false,
    }
}

// Entries fill the rest, none of the same offset and type twice. Only an offset that was met before is sought among the entries
// passed, so a table whose offsets differ is read once.
fn entries(s: &[u8], start: usize) -> bool
    ensures { result ≡ entries_fill s.now start }
{
    // Kept a loop of its own: it marks each offset behind the test, and the test needs the mark from before.
    let mut seen = [0u64; WORDS];
    let mut at = start;
    loop {
        match tlv::field_at(s, at) {
            Step::Field { tag, from, to } => {
                if tag != 3 {
                    return false;
                }
                let body = &s[..to];
                if !entry(body, from) {
                    return false;
                }
                let offset = tlv::two_at(body, from);
                let met = is_marked(&seen, offset);
                if repeats(&s[..at], start, met, offset, type_at(body, from)) {
                    return false;
                }
                mark(&mut seen, offset);
                at = to;
            }
            Step::Stray => return false,
            Step::Overrun => return false,
            Step::End => return true,
        }
    }
}

// Does an entry of that offset and type stand in the text from `start` on? There is none if the offset was not met.
fn repeats(s: &[u8], start: usize, met: bool, offset: u16, name: &[u8]) -> bool
    ensures { result ≡ (met && has_wanted (Want.Typed offset) name.now s.now start) }
{
    met && has(s, start, Want::Typed(offset), name)
}

// Two-byte offset, then at most one 4 (name), at most one 5 (packet type), then 6s.
#[tactic(auto, unfolding(crate::specs::Reading::entry_body))]
fn entry(s: &[u8], from: usize) -> bool
    ensures { result ≡ entry_body s.now from }
{
    if s.len() <= from || s.len() - from < 2 {
        return false;
    }
    let name = from + 2;
    let packet_type = after(s, 4, name);
    optional_name(s, 4, name)
        && optional_name(s, 5, packet_type)
        && ranges(s, after(s, 5, packet_type))
}

// Where a field of that tag stands at the place, its body is a name.
fn optional_name(s: &[u8], tag: u8, at: usize) -> bool
    ensures { result ≡ optional_name tag s.now at }
{
    match tlv::field_at(s, at) {
        Step::Field { tag: t, from, to } if t == tag => is_name(&s[from..to]),
        _ => true,
    }
}

// Bit ranges fill the rest.
fn ranges(s: &[u8], start: usize) -> bool
    ensures { result ≡ ranges_fill s.now start }
{
    fills(s, start, |body, tag, from| tag == 6 && range(body, from))
}

// Low byte and high byte, low ≤ high ≤ 31, one 4, then 7s.
#[tactic(auto, unfolding(crate::specs::Reading::range_body))]
fn range(s: &[u8], from: usize) -> bool
    ensures { result ≡ range_body s.now from }
{
    if s.len() <= from || s.len() - from < 2 {
        return false;
    }
    let name = from + 2;
    s[from] <= s[from + 1]
        && s[from + 1] <= 31
        && is_name(body_at(s, 4, name))
        && values(s, after(s, 4, name))
}

// Values fill the rest, none twice.
fn values(s: &[u8], start: usize) -> bool
    ensures { result ≡ values_fill s.now start }
{
    fills(s, start, |body, tag, from| {
        tag == 7
            && value(body, from)
            && !has(s, body.len(), Want::Value(tlv::four_at(body, from)), b"")
    })
}

// Four-byte value, then its name.
#[tactic(auto, unfolding(crate::specs::Reading::value_body))]
fn value(s: &[u8], from: usize) -> bool
    ensures { result ≡ value_body s.now from }
{
    from < s.len() && 4 <= s.len() - from && is_name(&s[from + 4..])
}
