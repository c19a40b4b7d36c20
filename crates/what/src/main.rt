// Says what standard input is, the whole of it taken as one text: `record`, `line`, or `neither` with the number that refuses it. A line is strict,
// and lenient by the word `lenient`.
#![tactic(auto)]

mod row;

ghost use Rattle.std.specs.Prelude.{◌≤◌, length};

use channel::fault::Fault;
use channel::reading::read_whole;
use channel::sentence::{tell, tell_failed};
use channel::status::Status;
use channel::writing::write_whole;
use choice::ask_choice;
use print::page::Page;
use row::put_answer;
use scan::Pieces;
use std::io::Stderr;
use std::process::ExitCode;

// What kept the program from its work.
#[derive(Clone, Copy, Debug)]
enum Kept {
    Call,
    Reading(Fault),
    Writing(Fault),
}

fn main(rt: HostRuntime) -> ExitCode {
    let mut text = [0u8; 65539];
    match answer(&rt, &mut text) {
        Ok(()) => ExitCode::SUCCESS,
        Err(kept) => tell_kept(rt.stderr(), kept),
    }
}

// The first 65,539 bytes tell what a text is, however long it is (`row_of_the_whole`), so no more is read.
fn answer(rt: &HostRuntime, text: &mut [u8]) -> Result<(), Kept>
    requires { 65539 ≤ length text.old }
{
    let pieces = ask_choice(rt, 1).ok_or(Kept::Call)?;
    let n = read_whole(&mut rt.stdin(), text).map_err(Kept::Reading)?;
    let mut room = [0u8; 32];
    let mut row = Page::new(&mut room);
    put_answer(&mut row, &text[..n], pieces);
    write_whole(&mut rt.stdout(), row.text()).map_err(|cut| Kept::Writing(cut.fault))?;
    Ok(())
}

fn tell_kept(to: Stderr, kept: Kept) -> ExitCode {
    match kept {
        Kept::Call => {
            tell(to, b"usage: what [lenient] < TEXT\n");
            ExitCode::from(Status::BadCall)
        }
        Kept::Reading(fault) => {
            tell_failed(to, b"what", b"reading standard input", fault.errno);
            ExitCode::from(Status::Fault)
        }
        Kept::Writing(fault) => {
            tell_failed(to, b"what", b"writing standard output", fault.errno);
            ExitCode::from(Status::Fault)
        }
    }
}
