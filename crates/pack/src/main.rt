// Packs lines of trace and records on standard input into records on standard output; a record goes through as it is, so what `pack` wrote, packed again,
// is the same bytes. A unit that is refused has no record: it is told on standard error, in the listing's row, with its place among the units. The last
// row there says how many units there were, and how many records. A unit that starts with A1 is a record of the length that it says, any other a line.
// A line with a piece of `data` that is not 32-bit hex is refused, unless the argument is `lenient`: then the piece is left out.
#![tactic(auto)]

use moving::{Program, run_chosen};
use std::process::ExitCode;

fn main(rt: HostRuntime) -> ExitCode {
    run_chosen(&rt, Program::Pack)
}
