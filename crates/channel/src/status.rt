// The exit status of a program that was kept from its work.
ghost use Rattle.std.specs.Prelude.{◌≡◌};
ghost use Rattle.std.specs.Process.{exit_status};
ghost use Rattle.channel.specs.Status.{status_number};

use std::process::ExitCode;

// What kept a program from its work: a read or a write that failed (1), a call that is wrong in its arguments or its book (2), a record
// among the lines (3).
#[derive(Clone, Copy, Debug, PartialEq, Eq)]
pub enum Status {
    Fault = 1,
    BadCall = 2,
    Record = 3,
}

// The status as `main` returns it.
impl From<Status> for ExitCode {
    ghost from_gives = { λ status code. exit_status code ≡ status_number status };

    fn from(status: Status) -> ExitCode {
        ExitCode::from(status as u8)
    }
}
