// The program show, as a call: lines and records on standard input shown as packets over a book whose file the first argument names; a
// second, `lenient`, leaves pieces of `data` that are not 32-bit hex out. A book that cannot be read or breaks its grammar is told, and nothing is shown.
#![tactic(auto)]

ghost use Rattle.std.specs.Prelude.{◌≤◌, length, IfOk};

use channel::fault::Fault;
use channel::reading::read_whole;
use channel::sentence::{tell, tell_failed};
use channel::status::Status;
use channel::streams::{Streams, streams_of};
use choice::ask_choice;
use moving::{Program, give_usage, run_program};
use scan::Pieces;
use std::env::{Env, FillError};
use std::fs::File;
use std::io::Stderr;
use std::process::ExitCode;

// EINVAL, for a path that is no text: std opens none by it.
const NO_TEXT: Fault = Fault { errno: 22 };

// ENAMETOOLONG, for an argument that is longer than a path may be: it is none of the file's names.
const TOO_LONG: Fault = Fault { errno: 36 };

// What kept the program from a book.
#[derive(Clone, Copy)]
enum NoBook {
    Opening(Fault),
    Reading(Fault),
    TooLong,
    BadGrammar,
}

// The whole program; the status that it ends with.
pub fn run_show(rt: &HostRuntime) -> ExitCode {
    match ask_choice(rt, 2) {
        Some(pieces) => show_named(rt, pieces),
        None => give_usage(rt.stderr(), Program::Show(Pieces::Strict)),
    }
}

fn show_named(rt: &HostRuntime, pieces: Pieces) -> ExitCode {
    let mut path = [0u8; 4096];
    match rt.arg(1, &mut path) {
        Ok(n) => show_asked(rt, &path[..n], pieces),
        Err(FillError::TooLong) => refuse(rt.stderr(), NoBook::Opening(TOO_LONG)),
        Err(FillError::NotPresent) => refuse(rt.stderr(), NoBook::Opening(NO_TEXT)),
    }
}

fn show_asked(rt: &HostRuntime, path: &[u8], pieces: Pieces) -> ExitCode {
    if path == b"--help".as_slice() {
        return give_usage(rt.stderr(), Program::Show(pieces));
    }
    let mut buffer = [0u8; 65536];
    match read_book(rt, path, &mut buffer) {
        Ok(n) => show_book(streams_of(rt), &buffer[..n], pieces),
        Err(why) => refuse(rt.stderr(), why),
    }
}

// How many bytes the book has. A book has at most 65,535, so one that fills the buffer is too long.
fn read_book(rt: &HostRuntime, path: &[u8], buffer: &mut [u8]) -> Result<usize, NoBook>
    ensures { IfOk result (λ n. n ≤ length buffer.new) }
{
    let name = str::from_utf8(path).map_err(|_| NoBook::Opening(NO_TEXT))?;
    let mut file = File::open(rt, name).map_err(|error| NoBook::Opening(error.into()))?;
    let n = read_whole(&mut file, buffer).map_err(NoBook::Reading)?;
    if buffer.len() <= n {
        return Err(NoBook::TooLong);
    }
    Ok(n)
}

fn show_book(streams: Streams, book: &[u8], pieces: Pieces) -> ExitCode {
    match book::check(book) {
        Ok(()) => run_program(streams, Program::Show(pieces), book),
        Err(_) => refuse(streams.error, NoBook::BadGrammar),
    }
}

fn refuse(to: Stderr, why: NoBook) -> ExitCode {
    match why {
        NoBook::Opening(fault) => tell_failed(to, b"show", b"opening the book", fault.errno),
        NoBook::Reading(fault) => tell_failed(to, b"show", b"reading the book", fault.errno),
        NoBook::TooLong => tell(to, b"show: the book has more than 65535 bytes\n"),
        NoBook::BadGrammar => tell(to, b"show: the book breaks its grammar (20)\n"),
    }
    ExitCode::from(Status::BadCall)
}
