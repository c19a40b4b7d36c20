// Longest runs of a class, from a place and back from the end, and what stripping leaves. Runs of bytes other than b go by blocks of sixteen; the block
// at the end may cover bytes already passed. Right because none of those is b, so the b that it finds is a new one.
ghost use Rattle.std.specs.Prelude.{◌≡◌, ℕ, Bool};
ghost use Rattle.text.specs.Class.{in_class, is_blank, other_than};
ghost use Rattle.text.specs.Run.{Tests, EndsAt, StartsAt, run_end, stripped};
ghost use Rattle.text.specs.Part.{OwnBytes};

use crate::block::{BLOCK, first_of, holds, last_of};
use crate::class::Class;

// Where the longest run of bytes that pass a test from a place ends: the place itself where no such byte stands there.
pub(crate) fn end_of<F: Fn(u8) -> bool>(s: &[u8], from: usize, passes: F) -> usize
    requires { F.IsAlwaysCallable passes }
    ensures { (p : ℕ → Bool) → Tests (F.post passes) p → EndsAt p s.now from result }
{
    for i in from..s.len() {
        if !passes(s[i]) {
            return i;
        }
    }
    from.max(s.len())
}

// Where the longest run of bytes that pass a test and end the text starts.
fn start_of<F: Fn(u8) -> bool>(s: &[u8], passes: F) -> usize
    requires { F.IsAlwaysCallable passes }
    ensures { (p : ℕ → Bool) → Tests (F.post passes) p → StartsAt p s.now result }
{
    for i in (0..s.len()).rev() {
        if !passes(s[i]) {
            return i + 1;
        }
    }
    0
}

// Where the longest run of the class from a place ends: the place itself where no byte of the class stands there.
pub fn run_end(s: &[u8], c: Class, from: usize) -> usize
    ensures { EndsAt (in_class c) s.now from result }
{
    end_of(s, from, |b| c.has(b))
}

// Where the longest run of the class that ends the text starts.
pub fn run_start(s: &[u8], c: Class) -> usize
    ensures { StartsAt (in_class c) s.now result }
{
    start_of(s, |b| c.has(b))
}

// Where the run of bytes other than b from a place ends: at the next b, else at the text's end.
pub fn until(s: &[u8], b: u8, from: usize) -> usize
    ensures { EndsAt (other_than b) s.now from result }
{
    let n = s.len();
    // No block fits.
    if n < BLOCK || n - BLOCK < from {
        return end_of(s, from, |x| x != b);
    }
    // Counted by hand: the step is a block, and the last one is no step but lies where it ends the text.
    let last = n - BLOCK;
    let mut i = from;
    while i < last {
        if holds(s, i, b) {
            return i + first_of(s, i, b);
        }
        i += BLOCK;
    }
    last + first_of(s, last, b)
}

// Where the run of bytes other than b that ends the text starts: behind the last b, else at the text's start.
pub fn behind_last(s: &[u8], b: u8) -> usize
    ensures { StartsAt (other_than b) s.now result }
{
    let mut i = s.len();
    // No block fits.
    if i < BLOCK {
        return start_of(s, |x| x != b);
    }
    // Counted by hand: the step is a block, and the last one is cut to what is left.
    while BLOCK < i {
        if holds(s, i - BLOCK, b) {
            return i - BLOCK + last_of(s, i - BLOCK, b);
        }
        i = BLOCK.max(i - BLOCK);
    }
    last_of(s, 0, b)
}

// The text without the blanks at its ends: a part of what is lent.
pub fn strip(s: &[u8]) -> &[u8]
    ensures { OwnBytes s.entry (run_end is_blank s.now 0) (stripped s.now) result }
{
    let from = run_end(s, Class::Blank, 0);
    let rest = &s[from..];
    let to = run_start(rest, Class::Blank);
    &rest[..to]
}
