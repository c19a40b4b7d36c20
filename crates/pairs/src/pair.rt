// Pairs from the left, each search from where the last pair ended, and the last pair of a key.
ghost use Rattle.std.specs.Prelude.{◌≡◌, ◌≤◌, length};
ghost use Rattle.text.specs.Class.{in_class, is_word};
ghost use Rattle.text.specs.Run.{run_end, run_start};
ghost use Rattle.text.specs.declared.class.Class.TheVariants.{NotClose};
ghost use Rattle.pairs.specs.Pair.{bracket_end, value_end, pair_with, NextPair, ValueAt};

use text::class::Class;
use text::place::byte_at;
use text::run::{behind_last, run_end, until};

// A pair by its places: where its key starts, where its `=` stands, where its value ends.
#[derive(Clone, Copy)]
pub struct Hit {
    pub key: usize,
    pub equals: usize,
    pub end: usize,
}

// The part of a text from a place up to another.
#[derive(Clone, Copy)]
pub struct Span {
    pub from: usize,
    pub to: usize,
}

// The value of the last pair of a key.
pub fn last_pair(s: &[u8], key: &[u8]) -> Option<Span>
    ensures { ValueAt s.now key.now result }
{
    let tail = behind_last(s, b']');
    let mut best = None;
    let mut at = 0;
    while let Some(hit) = next_before(s, at, tail) {
        if &s[hit.key..hit.equals] == key {
            best = Some(Span {
                from: hit.equals + 1,
                to: hit.end,
            });
        }
        at = hit.end;
    }
    best
}

// The first pair from a place on. A try that fails fails from every byte of its word run, and none starts at the byte behind it, so the
// search goes on behind that: a word run costs no more than its length. Asked for: where no `]` stands any more, found once a walk.
fn next_before(s: &[u8], from: usize, tail: usize) -> Option<Hit>
    requires { tail ≡ run_start (in_class NotClose) s.now }
    ensures { NextPair s.now from result }
{
    let mut i = from;
    while i < s.len() {
        let m = run_end(s, Class::Word, i);
        if let Some(hit) = try_at(s, i, m, tail) {
            return Some(hit);
        }
        i = m + 1;
    }
    None
}

// The try at a pair from i on, whose word run ends at m: given up at its first unfit byte.
fn try_at(s: &[u8], i: usize, m: usize, tail: usize) -> Option<Hit>
    requires { (m ≤ length s.now) × (tail ≡ run_start (in_class NotClose) s.now) }
    ensures { result ≡ pair_with s.now i m }
{
    if m <= i {
        return None;
    }
    if byte_at(s, m) != b'=' {
        return None;
    }
    let v = m + 1;
    let end = value_end(s, v, run_end(s, Class::Word, v), tail)?;
    Some(Hit {
        key: i,
        equals: m,
        end,
    })
}

// Where the value from v on ends, whose word run ends at e: there if the run has a byte, else with its brackets. No `]` stands from `tail` on, so a `[`
// there is given up at once, and many of them cost no more than one. Asked for: where the run ends and where no `]` stands any more, which both walks have
// sought.
pub fn value_end(s: &[u8], v: usize, e: usize, tail: usize) -> Option<usize>
    requires { (e ≡ run_end is_word s.now v) × (tail ≡ run_start (in_class NotClose) s.now) }
    ensures { result ≡ value_end s.now v }
{
    if v < e {
        return Some(e);
    }
    if tail <= v {
        return None;
    }
    bracket_end(s, v)
}

// `[`, one or more bytes other than `]`, `]`.
#[tactic(auto, unfolding(crate::specs::Pair::bracket_end, text::specs::Class::in_class))]
fn bracket_end(s: &[u8], v: usize) -> Option<usize>
    ensures { result ≡ bracket_end s.now v }
{
    if byte_at(s, v) != b'[' {
        return None;
    }
    let c = until(s, b']', v + 1);
    (v + 1 < c && c < s.len()).then_some(c + 1)
}
