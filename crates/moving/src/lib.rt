// The one loop of the programs: it reads a part of standard input, hands it on, and writes what comes of it. A read or a write that fails
// ends it with one sentence on standard error and a status.
#![tactic(auto)]

mod cut;
mod moving;
mod output;
mod program;

ghost use Rattle.std.specs.Prelude.{◌≤◌, length};

use crate::moving::Moving;
pub use crate::program::Program;
use channel::sentence::tell;
use channel::status::Status;
use channel::streams::{Streams, streams_of};
use choice::{arg_count, ask_choice};
use scan::Pieces;
use std::io::Stderr;
use std::process::ExitCode;

// A whole program that takes no argument; the status that it ends with.
pub fn run_plain(rt: &HostRuntime, program: Program) -> ExitCode {
    if arg_count(rt) == 1 {
        run_program(streams_of(rt), program, b"")
    } else {
        give_usage(rt.stderr(), program)
    }
}

// A whole program that may be told its choice.
pub fn run_chosen<F: Fn(Pieces) -> Program>(rt: &HostRuntime, program: F) -> ExitCode
    requires { F.IsAlwaysCallable program }
{
    match ask_choice(rt, 1) {
        Some(pieces) => run_program(streams_of(rt), program(pieces), b""),
        None => give_usage(rt.stderr(), program(Pieces::Strict)),
    }
}

// The programs `pack` and `unpack`, which may be told their choice, and a program that takes no argument.
pub fn run_pack(rt: &HostRuntime) -> ExitCode {
    run_chosen(rt, Program::Pack)
}

pub fn run_unpack(rt: &HostRuntime) -> ExitCode {
    run_chosen(rt, Program::Unpack)
}

pub fn run_filter(rt: &HostRuntime, program: Program) -> ExitCode {
    run_plain(rt, program)
}

pub fn give_usage(to: Stderr, program: Program) -> ExitCode {
    tell(to, program.usage());
    ExitCode::from(Status::BadCall)
}

// A whole program, over a book that was checked; the filters have none. `show` tells nothing, so it has no more room for that than is asked for:
// with the others' buffer it took 64 KiB of stack that it never used.
pub fn run_program(streams: Streams, program: Program, book: &[u8]) -> ExitCode {
    match program {
        Program::Show(_) => run_telling(streams, program, book, &mut [0u8; 400]),
        Program::Listing | Program::Pack(_) | Program::Unpack(_) => {
            run_telling(streams, program, book, &mut [0u8; 65536])
        }
    }
}

// The same, with the room for what it tells.
fn run_telling(streams: Streams, program: Program, book: &[u8], told: &mut [u8]) -> ExitCode
    requires { 400 ≤ length told.old }
{
    let mut input = [0u8; 65536];
    let mut unit = [0u8; 8192];
    let mut out = [0u8; 65536];
    let mut moving = Moving::new(streams, book, &mut out, told);
    let read = moving.read_all(program, &mut input, &mut unit);
    moving.drain(program);
    moving.tell_end(program, read)
}
