// Shows the lines and records on standard input as packets over a book, whose file the argument names: of each entry its time, function, kind and route,
// each dword with what the book says of it, and where the data starts; of each other unit why it is none. A book that cannot be read or breaks
// its grammar is told, and nothing is shown. A line with a piece of `data` that is not 32-bit hex is none, unless a second argument, `lenient`, has the
// piece left out. A unit that starts with A1 is a record of the length that it says.
#![tactic(auto)]

use showing::run_show;
use std::process::ExitCode;

fn main(rt: HostRuntime) -> ExitCode {
    run_show(&rt)
}
