// A stream fed in parts. What is kept between two calls is a plain struct of numbers, taken with any bits.
// C's interface: the structs' numbers are its layout, and strict and lenient are two names.
ghost use Rattle.std.specs.Prelude.{◌≡◌};
ghost use Rattle.scan.specs.declared.Pieces.TheVariants as P;
ghost use Rattle.refusal.specs.Told.{told_maybe};
ghost use Rattle.capi.specs.Streams.{StreamFed, StreamEnded, stream_by};

use crate::blank_entry;
use c_entry::Flat;
use entry::Entry;
use refusal::Refusal;
use scan::Pieces;
use stream::{Fed, Finished, feed, finish};
use units::State;

// Number 0, that a unit ended and its entry; the number that refuses the unit that ended; number 0 and no unit; or number 53 and nothing. Then where the
// part was left and what is kept.
#[repr(C)]
#[derive(Clone, Copy)]
pub struct StreamAnswer {
    pub number: u8,
    pub ended: u8,
    pub at: usize,
    pub state: State,
    pub entry: Flat,
}

// A part's bytes up to the end of the next unit, and its answer. A bad piece of a line's data refuses it: 18.
pub fn ck_stream_feed(state: State, part: &[u8], rest: &mut [u8], slots: &mut [u32]) -> StreamAnswer
    ensures { StreamFed P.Strict part.now rest.old slots.old state rest.new slots.new result }
{
    feed_by(state, Pieces::Strict, part, rest, slots)
}

// The same, but bad pieces are left out.
pub fn ck_stream_feed_lenient(
    state: State,
    part: &[u8],
    rest: &mut [u8],
    slots: &mut [u32],
) -> StreamAnswer
    ensures { StreamFed P.Lenient part.now rest.old slots.old state rest.new slots.new result }
{
    feed_by(state, Pieces::Lenient, part, rest, slots)
}

// The stream's end: the open unit's answer, if there is one.
pub fn ck_stream_finish(state: State, rest: &[u8], slots: &mut [u32]) -> StreamAnswer
    ensures { StreamEnded P.Strict rest.now slots.old state slots.new result }
{
    finish_by(state, Pieces::Strict, rest, slots)
}

// The same, but bad pieces are left out.
pub fn ck_stream_finish_lenient(state: State, rest: &[u8], slots: &mut [u32]) -> StreamAnswer
    ensures { StreamEnded P.Lenient rest.now slots.old state slots.new result }
{
    finish_by(state, Pieces::Lenient, rest, slots)
}

fn feed_by(
    state: State,
    pieces: Pieces,
    part: &[u8],
    rest: &mut [u8],
    slots: &mut [u32],
) -> StreamAnswer
    ensures { StreamFed pieces part.now rest.old slots.old state rest.new slots.new result }
{
    let Fed { at, state, answer } = feed(state, pieces, part, rest, slots);
    stream_answer(at, state, answer)
}

fn finish_by(state: State, pieces: Pieces, rest: &[u8], slots: &mut [u32]) -> StreamAnswer
    ensures { StreamEnded pieces rest.now slots.old state slots.new result }
{
    let Finished { state, answer } = finish(state, pieces, rest, slots);
    stream_answer(0, state, answer)
}

// Every refusal but 53 is that of a unit that ended. The entry is chosen apart from the numbers, and in the calls themselves: with a whole answer for
// each of the three cases the compiler kept two copies of its fields, and a part without a byte took 1.4 times the time.
#[inline(always)]
#[tactic(auto, unfolding(crate::specs::Streams::stream_by, crate::specs::Streams::ended_by))]
fn stream_answer(at: usize, state: State, answer: Result<Option<Entry>, Refusal>) -> StreamAnswer
    ensures { result ≡ stream_by at state (told_maybe answer) }
{
    let (number, ended) = match answer {
        Ok(Some(_)) => (0, 1),
        Ok(None) => (0, 0),
        Err(refusal) => (refusal.number(), u8::from(refusal != Refusal::NoStream)),
    };
    let entry = match answer {
        Ok(Some(e)) => e.into(),
        Ok(None) | Err(_) => blank_entry(),
    };
    StreamAnswer {
        number,
        ended,
        at,
        state,
        entry,
    }
}
