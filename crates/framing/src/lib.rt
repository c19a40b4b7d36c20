// A stream in parts of any size, cut into units: lines, or records. Of each unit as many bytes are kept as the lent unit buffer has: one
// more than a unit may have tells an overlong one.
#![tactic(auto)]

ghost use Rattle.std.specs.Prelude.{◌≡◌, ◌++◌, ◌+◌, ◌≤◌, ◌<◌, leb, length, drop, get_or};
ghost use Rattle.framing.specs.declared.Framing.TheVariants as F;
ghost use Rattle.framing.specs.Units.{stated_size};
ghost use Rattle.framing.specs.Feeding.{Fed as FedBy, Ends, end_of, units_in};

use text::copy::copy;
use text::place::{byte_at, first};

// How a stream is cut: a line ends with its newline, a record where its length says.
#[derive(Clone, Copy, Debug, PartialEq, Eq)]
pub enum Framing {
    Lines,
    Records,
}

// `whole` is no absence: what is held stands either way.
// Where the part was left, how many bytes of the unit are held, and whether it is whole.
#[derive(Clone, Copy, Debug, PartialEq, Eq)]
pub struct Fed {
    pub at: usize,
    pub held: usize,
    pub whole: bool,
}

// The part's bytes from a place on into the unit behind what is held, up to where the unit is whole, else to the part's end.
// Asked for: a byte at the place, and a unit buffer of one byte more than a record's length can state. The loops over a part, in `filters`, `moving`,
// `unanswered` and `why`, go on while a byte is left and have such a buffer.
pub fn feed(framing: Framing, part: &[u8], from: usize, unit: &mut [u8], held: usize) -> Fed
    requires { (from < length part.now) × (held ≤ length unit.old) × (65539 ≤ length unit.old) }
    ensures { FedBy framing part.now from unit.old held unit.new result }
{
    let end = unit_end(framing, part, from, &unit[..held]);
    let at = end.unwrap_or(part.len());
    let count = (at - from).min(unit.len() - held);
    copy(&part[from..from + count], &mut unit[held..held + count]);
    Fed {
        at,
        held: held + count,
        whole: end.is_some(),
    }
}

// How many units these bytes end. A loop of its own: each end says where the next unit begins.
pub fn units_in(framing: Framing, s: &[u8]) -> usize
    ensures { result ≡ units_in framing s.now }
{
    let mut n = 0;
    let mut at = 0;
    while at < s.len() {
        let Some(end) = unit_end(framing, s, at, &[]) else {
            break;
        };
        n += 1;
        at = end;
    }
    n
}

// Where the open unit ends in the part, if it does.
fn unit_end(framing: Framing, part: &[u8], from: usize, held: &[u8]) -> Option<usize>
    requires { from < length part.now }
    ensures { Ends framing part.now from held.now (end_of part.now result) }
{
    match framing {
        Framing::Lines => line_end(part, from, held),
        Framing::Records => record_end(part, from, held),
    }
}

fn line_end(part: &[u8], from: usize, held: &[u8]) -> Option<usize>
    requires { from < length part.now }
    ensures { Ends F.Lines part.now from held.now (end_of part.now result) }
{
    let newline = first(part, b'\n', from)?;
    Some(newline + 1)
}

fn record_end(part: &[u8], from: usize, held: &[u8]) -> Option<usize>
    requires { from < length part.now }
    ensures { Ends F.Records part.now from held.now (end_of part.now result) }
{
    let size = open_size(part, from, held);
    if size <= held.len() || part.len() - from < size - held.len() {
        return None;
    }
    Some(from + (size - held.len()))
}

// The size that the first three bytes of the open record state; 0 where they are not all there, or the first is not A1.
fn open_size(part: &[u8], from: usize, held: &[u8]) -> usize
    requires { from < length part.now }
    ensures { result ≡ stated_size (held.now ++ drop from part.now) }
{
    if !has_three(part, from, held) || open_byte(part, from, held, 0) != 0xA1 {
        return 0;
    }
    let low = open_byte(part, from, held, 1);
    let high = open_byte(part, from, held, 2);
    3 + usize::from(u16::from_le_bytes([low, high]))
}

// The open unit has three bytes, of which the part has the last ones.
fn has_three(part: &[u8], from: usize, held: &[u8]) -> bool
    requires { from < length part.now }
    ensures { result ≡ leb 3 (length (held.now ++ drop from part.now)) }
{
    3 <= held.len() || 3 - held.len() <= part.len() - from
}

// A byte of the open unit: of what is held, else of the part; past its end 0.
fn open_byte(part: &[u8], from: usize, held: &[u8], i: usize) -> u8
    requires { (from < length part.now) × (i < 3) }
    ensures { result ≡ get_or (held.now ++ drop from part.now) i 0 }
{
    if i < held.len() {
        return held[i];
    }
    byte_at(part, from + (i - held.len()))
}
