// A stream in parts of any size, cut into its units. What is kept of the open unit stands in a lent buffer of 8,192 bytes.
//
//     feed      a part's bytes up to the end of the open unit
//     feed_on   the same where what is kept is known to be a stream's
//     finish    the unit that the stream's end ends
//     is_kept   whether some stream leaves this
//     units_in  how many units have ended in a stream that came so far
#![tactic(auto)]

mod ending;
mod growing;
mod keeping;

ghost use Rattle.std.specs.Prelude.{◌≡◌, true, ◌≤◌, length};
ghost use Rattle.units.specs.Kept.{is_kept};
ghost use Rattle.units.specs.Feeding.{first_of, FedFor, FeedDone, FinishDone, end_unit};
ghost use Rattle.units.specs.Counting.{Ended};

use crate::ending::unit_end;
use crate::growing::{body_on, head_on, line_on};
use crate::keeping::{is_left, marks, stated};
use text::place::byte_at;

// What a stream is made of: lines alone, whatever they start with; or lines and records, which start with A1.
#[derive(Clone, Copy, Debug, PartialEq, Eq)]
pub enum Framing {
    Lines,
    Both,
}

// How many bytes of the open unit stand in the buffer; and of a record that says too much how many behind its third were passed over, else 0.
#[repr(C)]
#[derive(Clone, Copy, Debug, PartialEq, Eq)]
pub struct State {
    pub held: usize,
    pub passed: usize,
}

// What ended: a unit with so many of its bytes in the buffer, to be read; a record that says too much; another that the end cuts; or nothing. Or no
// stream leaves what was lent.
#[derive(Clone, Copy, Debug, PartialEq, Eq)]
pub enum Unit {
    Text(usize),
    Long,
    Cut,
    Open,
    Alien,
}

// Up to where the part was read, what is kept for the next call, and the unit.
#[derive(Clone, Copy, Debug, PartialEq, Eq)]
pub struct Fed {
    pub at: usize,
    pub state: State,
    pub unit: Unit,
}

// The part's bytes from a place on, up to the end of the open unit, else to the part's end. Asked for: a place in the part, or its end; `stream`
// gives 0.
pub fn feed(framing: Framing, state: State, part: &[u8], from: usize, rest: &mut [u8]) -> Fed
    requires { from ≤ length part.now }
    ensures { FeedDone framing part.now from rest.old state rest.new result }
{
    if is_kept(framing, state, rest) {
        return feed_on(framing, state, part, from, rest);
    }
    Fed {
        at: from,
        state,
        unit: Unit::Alien,
    }
}

// The same, without a second look at what is kept. Asked for: that a stream leaves it; the filters keep it so from call to call.
pub fn feed_on(framing: Framing, state: State, part: &[u8], from: usize, rest: &mut [u8]) -> Fed
    requires { (from ≤ length part.now) × (is_kept framing rest.old state.held state.passed ≡ true) }
    ensures { FedFor framing part.now from rest.old state.held state.passed rest.new result }
{
    let held = state.held;
    if marks(framing, first_byte(part, from, rest, held)) {
        if held < 3 {
            return head_on(framing, part, from, rest, held);
        }
        return body_on(framing, part, from, rest, held, state.passed);
    }
    line_on(framing, part, from, rest, held)
}

// The first byte of the unit that is open, or that the part begins.
fn first_byte(part: &[u8], from: usize, rest: &[u8], held: usize) -> u8
    requires { held ≤ length rest.now }
    ensures { result ≡ first_of part.now from rest.now held }
{
    if 0 < held {
        return byte_at(rest, 0);
    }
    byte_at(part, from)
}

// The stream's end: the open unit, if there is one.
pub fn finish(framing: Framing, state: State, rest: &[u8]) -> Unit
    ensures { FinishDone framing rest.now state result }
{
    let held = state.held;
    if is_kept(framing, state, rest) {
        return end_unit(framing, &rest[..held]);
    }
    Unit::Alien
}

// The unit of which this is kept, ended by the stream's end.
fn end_unit(framing: Framing, kept: &[u8]) -> Unit
    ensures { result ≡ end_unit framing kept.now }
{
    if kept.is_empty() {
        return Unit::Open;
    }
    if marks(framing, byte_at(kept, 0)) {
        if 5227 < stated(kept) {
            return Unit::Long;
        }
        return Unit::Cut;
    }
    Unit::Text(kept.len())
}

// A buffer of 8,192 bytes, and a state that some stream leaves.
pub fn is_kept(framing: Framing, state: State, rest: &[u8]) -> bool
    ensures { result ≡ is_kept framing rest.now state.held state.passed }
{
    let held = state.held;
    rest.len() == 8192 && held <= 8192 && is_left(framing, &rest[..held], state.passed)
}

// How many units have ended in a stream that came so far. A loop of its own: each end says where the next unit begins.
pub fn units_in(framing: Framing, s: &[u8]) -> usize
    ensures { Ended framing s.now result }
{
    let mut n = 0;
    let mut at = 0;
    while at < s.len() {
        let Some(end) = unit_end(framing, s, at) else {
            break;
        };
        n += 1;
        at = end;
    }
    n
}
