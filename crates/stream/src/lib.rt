// A stream in parts of any size, each of its units answered: a record or a line, by its entry or by the one number that refuses it.
//
//     feed        a part's bytes up to the end of the next unit, and that unit's answer
//     finish      the answer of the unit that the stream's end ends
//     read_unit   the answer of a unit that was cut off a stream
#![tactic(auto)]

ghost use Rattle.std.specs.Prelude.{◌≡◌, ◌≤◌, length};
ghost use Rattle.units.specs.Feeding.{text_length};
ghost use Rattle.stream.specs.Feeding.{empty, UnitRead, FeedDone, FinishDone, after_end};

use entry::Entry;
use refusal::Refusal;
use scan::Pieces;
use units::{Framing, State, Unit};

// Up to where the part was read, what is kept for the next call, and the answer.
#[derive(Clone, Copy)]
pub struct Fed {
    pub at: usize,
    pub state: State,
    pub answer: Result<Option<Entry>, Refusal>,
}

// What is kept for the next stream, which is nothing, and the answer.
#[derive(Clone, Copy)]
pub struct Finished {
    pub state: State,
    pub answer: Result<Option<Entry>, Refusal>,
}

// A stream that has not begun.
pub fn begun() -> State
    ensures { result ≡ empty }
{
    State { held: 0, passed: 0 }
}

// A part's bytes up to the end of the next unit, else to the part's end. The unit stands in the rest buffer, an entry's dwords in the first slots.
pub fn feed(state: State, pieces: Pieces, part: &[u8], rest: &mut [u8], slots: &mut [u32]) -> Fed
    ensures { FeedDone pieces part.now rest.old slots.old state rest.new slots.new result }
{
    let fed = units::feed(Framing::Both, state, part, 0, rest);
    let answer = read_unit(fed.unit, pieces, rest, slots);
    Fed {
        at: fed.at,
        state: fed.state,
        answer,
    }
}

// The stream's end: the open unit's answer, if there is one, and a stream that has not begun.
pub fn finish(state: State, pieces: Pieces, rest: &[u8], slots: &mut [u32]) -> Finished
    ensures { FinishDone pieces rest.now slots.old state slots.new result }
{
    let unit = units::finish(Framing::Both, state, rest);
    let answer = read_unit(unit, pieces, rest, slots);
    Finished {
        state: state_after(state, unit),
        answer,
    }
}

// After 53 the state is as it was.
#[tactic(auto, unfolding(crate::specs::Feeding::after_end))]
fn state_after(state: State, unit: Unit) -> State
    ensures { result ≡ after_end state unit }
{
    match unit {
        Unit::Text(_) | Unit::Long | Unit::Cut | Unit::Open => begun(),
        Unit::Alien => state,
    }
}

// The answer of a unit. Asked for: that its bytes stand in the buffer, as `units` leaves them.
pub fn read_unit(
    unit: Unit,
    pieces: Pieces,
    rest: &[u8],
    slots: &mut [u32],
) -> Result<Option<Entry>, Refusal>
    requires { text_length unit ≤ length rest.now }
    ensures { UnitRead pieces unit rest.now slots.old slots.new result }
{
    match unit {
        Unit::Text(n) => Ok(Some(intake::read(&rest[..n], pieces, slots)?)),
        Unit::Long => Err(Refusal::LongRecord),
        Unit::Cut => Err(Refusal::CutRecord),
        Unit::Open => Ok(None),
        Unit::Alien => Err(Refusal::NoStream),
    }
}
