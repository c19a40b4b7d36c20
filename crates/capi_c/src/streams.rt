// A stream fed in parts.
// C's interface: one symbol a name. What symbols share is in `capi` and below it.
ghost use Rattle.scan.specs.declared.Pieces.TheVariants as P;
ghost use Rattle.capi.specs.Streams.{StreamFed, StreamEnded};

use capi::streams::StreamAnswer;
use units::State;

#[unsafe(no_mangle)]
pub extern "C" fn ck_stream_feed(
    state: State,
    part: &[u8],
    rest: &mut [u8],
    slots: &mut [u32],
) -> StreamAnswer
    ensures { StreamFed P.Strict part.now rest.old slots.old state rest.new slots.new result }
{
    capi::streams::ck_stream_feed(state, part, rest, slots)
}

#[unsafe(no_mangle)]
pub extern "C" fn ck_stream_feed_lenient(
    state: State,
    part: &[u8],
    rest: &mut [u8],
    slots: &mut [u32],
) -> StreamAnswer
    ensures { StreamFed P.Lenient part.now rest.old slots.old state rest.new slots.new result }
{
    capi::streams::ck_stream_feed_lenient(state, part, rest, slots)
}

#[unsafe(no_mangle)]
pub extern "C" fn ck_stream_finish(state: State, rest: &[u8], slots: &mut [u32]) -> StreamAnswer
    ensures { StreamEnded P.Strict rest.now slots.old state slots.new result }
{
    capi::streams::ck_stream_finish(state, rest, slots)
}

#[unsafe(no_mangle)]
pub extern "C" fn ck_stream_finish_lenient(
    state: State,
    rest: &[u8],
    slots: &mut [u32],
) -> StreamAnswer
    ensures { StreamEnded P.Lenient rest.now slots.old state slots.new result }
{
    capi::streams::ck_stream_finish_lenient(state, rest, slots)
}
