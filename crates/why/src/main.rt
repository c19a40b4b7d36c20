// Says for each line of standard input which of its hex numbers could not be read and why: a row for each of them, and at the end the totals.
// Of the input one line is kept, whatever its size.
#![tactic(auto)]

mod asking;
mod reading;

ghost use Rattle.std.specs.Prelude.{◌≡◌, ◌≤◌, length, None};

use asking::Asking;
use channel::fault::Fault;
use channel::sentence::{tell, tell_fault, tell_numbered};
use channel::sink::Outlet;
use channel::status::Status;
use channel::streams::{Streams, streams_of};
use choice::arg_count;
use reading::{Reading, Stop};
use std::io::Stderr;
use std::process::ExitCode;

fn main(rt: HostRuntime) -> ExitCode {
    if arg_count(&rt) == 1 {
        let mut input = [0u8; 65536];
        let mut unit = [0u8; 65539];
        let mut row = [0u8; 20736];
        let mut out = [0u8; 65536];
        run(streams_of(&rt), &mut input, &mut unit, &mut row, &mut out)
    } else {
        tell(rt.stderr(), b"usage: why < LINES\n");
        ExitCode::from(Status::BadCall)
    }
}

fn run(
    streams: Streams,
    input: &mut [u8],
    unit: &mut [u8],
    row: &mut [u8],
    out: &mut [u8],
) -> ExitCode
    requires unit { 65539 ≤ length unit.old }
    requires row { 20736 ≤ length row.old }
{
    let sink = Outlet::new(streams.output, out);
    let mut reading = Reading::new(Asking::new(sink, row), unit);
    let read = reading.read_all(streams.input, input);
    reading.asking.flush();
    tell_end(streams.error, &reading.asking, read)
}

// One sentence for what kept the program from its work, and its status; success where all went well. Asked for: that nothing waits, unless a write
// failed.
fn tell_end(to: Stderr, asking: &Asking, read: Result<(), Stop>) -> ExitCode
    requires { asking.now.sink.sink.fault ≡ None → asking.now.sink.sink.at ≡ 0 }
{
    let whole = asking.sink.sink.whole;
    if let Some(fault) = asking.sink.sink.fault {
        return fail(to, b"writing standard output", fault, whole);
    }
    match read {
        Ok(()) => ExitCode::SUCCESS,
        Err(Stop::Unread(fault)) => fail(to, b"reading standard input", fault, whole),
        Err(Stop::Record) => stop(to, asking.counts.lines),
    }
}

fn stop(to: Stderr, line: u64) -> ExitCode {
    tell_numbered(
        to,
        b"why: line ",
        line,
        b" starts with A1: it is a record and no line; nothing of it or behind it was looked at",
    );
    ExitCode::from(Status::Record)
}

fn fail(to: Stderr, call: &[u8], fault: Fault, whole: u64) -> ExitCode {
    tell_fault(to, b"why", call, fault.errno, b"rows", whole);
    ExitCode::from(Status::Fault)
}
