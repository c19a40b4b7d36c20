// Matches the requests among the lines of standard input to their responses: a row for each line, at the end each request that waits still, then
// the totals. Of the input one line and a table of 64 requests are kept, whatever its size. A line with a bad piece is refused; by the word
// `lenient` the piece is left out.
#![tactic(auto)]

mod matching;
mod rows;

ghost use Rattle.std.specs.Prelude.{◌≤◌, length};

use channel::fault::Fault;
use channel::sentence::{tell, tell_fault};
use channel::sink::Outlet;
use channel::status::Status;
use channel::streams::{Streams, streams_of};
use choice::ask_choice;
use matching::Matching;
use scan::Pieces;
use std::io::Stderr;
use std::process::ExitCode;

fn main(rt: HostRuntime) -> ExitCode {
    match ask_choice(&rt, 1) {
        Some(pieces) => start(streams_of(&rt), pieces),
        None => refuse_call(rt.stderr()),
    }
}

fn refuse_call(to: Stderr) -> ExitCode {
    tell(to, b"usage: unanswered [lenient] < LINES\n");
    ExitCode::from(Status::BadCall)
}

fn start(streams: Streams, pieces: Pieces) -> ExitCode {
    let mut input = [0u8; 65536];
    let mut unit = [0u8; 65539];
    let mut out = [0u8; 65536];
    run(streams, &mut input, &mut unit, &mut out, pieces)
}

fn run(
    streams: Streams,
    input: &mut [u8],
    unit: &mut [u8],
    out: &mut [u8],
    pieces: Pieces,
) -> ExitCode
    requires { 65539 ≤ length unit.old }
{
    let mut matching = Matching::new(Outlet::new(streams.output, out), unit, pieces);
    let read = matching.read_all(streams.input, input);
    matching.sink.flush();
    let whole = matching.sink.sink.whole;
    if let Some(fault) = matching.sink.sink.fault {
        return fail(streams.error, b"writing standard output", fault, whole);
    }
    if let Err(fault) = read {
        return fail(streams.error, b"reading standard input", fault, whole);
    }
    ExitCode::SUCCESS
}

fn fail(to: Stderr, call: &[u8], fault: Fault, whole: u64) -> ExitCode {
    tell_fault(to, b"unanswered", call, fault.errno, b"rows", whole);
    ExitCode::from(Status::Fault)
}
