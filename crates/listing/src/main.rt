// Lists what each line of standard input is: its kind and how many dwords it has, or the number that refuses it; then the totals.
#![tactic(auto)]

use moving::{Program, run_plain};
use std::process::ExitCode;

fn main(rt: HostRuntime) -> ExitCode {
    run_plain(&rt, Program::Listing)
}
