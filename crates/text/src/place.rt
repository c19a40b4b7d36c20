// Bytes by their place, and the first and the last place of a byte: a run of other bytes ends at the first and starts behind the last.
ghost use Rattle.std.specs.Prelude.{◌≡◌, get_or};
ghost use Rattle.text.specs.Place.{byte_before, first_byte, last_byte};

use crate::run::{behind_last, until};

// The first place of the byte from a place on: where the run of other bytes ends.
pub fn first(s: &[u8], b: u8, from: usize) -> Option<usize>
    ensures { result ≡ first_byte b s.now from }
{
    let k = until(s, b, from);
    (k < s.len()).then_some(k)
}

// The last place of the byte: before the run of other bytes that ends the text.
pub fn last(s: &[u8], b: u8) -> Option<usize>
    ensures { result ≡ last_byte b s.now }
{
    behind_last(s, b).checked_sub(1)
}

// The byte at a place, 0 past the end.
pub fn byte_at(s: &[u8], i: usize) -> u8
    ensures { result ≡ get_or s.now i 0 }
{
    s.get(i).copied().unwrap_or(0)
}

// The byte before a place, 0 where there is none.
pub fn byte_before(s: &[u8], i: usize) -> u8
    ensures { result ≡ byte_before s.now i }
{
    if i == 0 { 0 } else { byte_at(s, i - 1) }
}
