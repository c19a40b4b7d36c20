// A field by its tag, and its number.
ghost use Rattle.std.specs.Prelude.{◌≡◌, ◌≤◌, ◌+◌, length};
ghost use Rattle.record.specs.Finding.{span_of, is_there, place_of, number_of, byte_of, word_of};

use tlv::{Step, byte_at, eight_at, field_at, four_at, two_at};

// Where a field's body lies.
#[derive(Clone, Copy, Debug, PartialEq, Eq)]
pub struct Span {
    pub from: usize,
    pub to: usize,
}

#[derive(Clone, Copy)]
pub struct Place {
    pub from: usize,
    pub len: usize,
}

// The body of the first field with the tag.
pub fn span_of(text: &[u8], tag: u8) -> Option<Span>
    ensures { result ≡ span_of text.now tag }
{
    let mut at = 3;
    while let Step::Field {
        tag: found,
        from,
        to,
    } = field_at(text, at)
    {
        if found == tag {
            return Some(Span { from, to });
        }
        at = to;
    }
    None
}

// Is there a field with the tag?
pub fn is_there(text: &[u8], tag: u8) -> bool
    ensures { result ≡ is_there (span_of text.now tag) }
{
    span_of(text, tag).is_some()
}

// The body's place and length, an empty one at the start where there is none.
#[tactic(auto, using(crate::proofs::Finding::span_moves), unfolding(crate::specs::Finding::place_of))]
pub fn place_of(text: &[u8], tag: u8) -> Place
    ensures { (result ≡ place_of text.now tag) × (result.from + result.len ≤ length text.now) }
{
    match span_of(text, tag) {
        Some(Span { from, to }) => Place {
            from,
            len: to - from,
        },
        None => Place { from: 0, len: 0 },
    }
}

// An optional field of one byte. Each of these six is one call at the type that it reads: one over all types would be a trait and its laws.
#[tactic(auto, using(tlv::proofs::Numbers::number_one), unfolding(crate::specs::Finding::byte_of, crate::specs::Finding::maybe_of))]
pub fn maybe_byte(text: &[u8], tag: u8) -> Option<u8>
    ensures { result ≡ byte_of text.now tag }
{
    let Span { from, to: _ } = span_of(text, tag)?;
    Some(byte_at(text, from))
}

// An optional field of two bytes.
#[tactic(auto, unfolding(crate::specs::Finding::word_of, crate::specs::Finding::maybe_of))]
pub fn maybe_word(text: &[u8], tag: u8) -> Option<u16>
    ensures { result ≡ word_of text.now tag }
{
    let Span { from, to: _ } = span_of(text, tag)?;
    Some(two_at(text, from))
}

// The number of one byte in the field with the tag, 0 where there is none.
#[tactic(auto, unfolding(crate::specs::Finding::number_of, crate::specs::Finding::byte_of))]
pub fn one_of(text: &[u8], tag: u8) -> u8
    ensures { result ≡ number_of 1 text.now tag }
{
    maybe_byte(text, tag).unwrap_or(0)
}

// The same of two bytes.
#[tactic(auto, unfolding(crate::specs::Finding::number_of, crate::specs::Finding::word_of))]
pub fn two_of(text: &[u8], tag: u8) -> u16
    ensures { result ≡ number_of 2 text.now tag }
{
    maybe_word(text, tag).unwrap_or(0)
}

// The same of four bytes.
#[tactic(auto, unfolding(crate::specs::Finding::number_of, crate::specs::Finding::maybe_of))]
pub fn four_of(text: &[u8], tag: u8) -> u32
    ensures { result ≡ number_of 4 text.now tag }
{
    match span_of(text, tag) {
        Some(Span { from, to: _ }) => four_at(text, from),
        None => 0,
    }
}

// The same of eight bytes.
#[tactic(auto, unfolding(crate::specs::Finding::number_of, crate::specs::Finding::maybe_of))]
pub fn eight_of(text: &[u8], tag: u8) -> u64
    ensures { result ≡ number_of 8 text.now tag }
{
    match span_of(text, tag) {
        Some(Span { from, to: _ }) => eight_at(text, from),
        None => 0,
    }
}
