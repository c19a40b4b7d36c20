// The program pack again, for a run of the gate over more bytes than its buffers have. tests/large/run makes what it reads and must write.
#![tactic(auto)]

use moving::{Program, run_chosen};
use std::process::ExitCode;

fn main(rt: HostRuntime) -> ExitCode {
    run_chosen(&rt, Program::Pack)
}
