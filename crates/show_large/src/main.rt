// The program show again, for a run of the gate over more bytes than its buffers have. tests/large/run makes what it reads and must write.
#![tactic(auto)]

use showing::run_show;
use std::process::ExitCode;

fn main(rt: HostRuntime) -> ExitCode {
    run_show(&rt)
}
