// Lists the lines and records on standard input, in the listing's rows: each unit's place, its kind and how many dwords it has, or the number that
// refuses it; then the totals. A unit that starts with A1 is a record and ends where its length says; any other is a line. One that says more than
// 5,227 bytes is passed over and refused with 55, another that the end of the input cuts with 54. A line with a piece of `data` that is not 32-bit hex
// is refused, unless the argument is `lenient`: then the piece is left out.
#![tactic(auto)]

use moving::{Program, run_chosen};
use std::process::ExitCode;

fn main(rt: HostRuntime) -> ExitCode {
    run_chosen(&rt, Program::Unpack)
}
