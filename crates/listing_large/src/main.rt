// The program listing again, for a run of the gate over more bytes than its buffers have. tests/large/run makes what it reads and must write.
#![tactic(auto)]

use moving::{Program, run_plain};
use std::process::ExitCode;

fn main(rt: HostRuntime) -> ExitCode {
    run_plain(&rt, Program::Listing)
}
