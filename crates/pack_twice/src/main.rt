// The program pack again, for a run of the gate over what pack wrote: it must write the same bytes. tests/large/run holds its files to pack's.
#![tactic(auto)]

use moving::{Program, run_chosen};
use std::process::ExitCode;

fn main(rt: HostRuntime) -> ExitCode {
    run_chosen(&rt, Program::Pack)
}
