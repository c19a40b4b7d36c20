// Why a call failed.
ghost use Rattle.std.specs.Prelude.{◌<◌};

use std::io::{Error, ErrorKind};

// The number of the error, which is never 0.
#[derive(Clone, Copy, Debug, PartialEq, Eq)]
pub struct Fault {
    pub errno: u32,
    ghost some: { 0 < errno },
}

// EIO, for a call that failed without a reason: a write that took nothing, or an error without a number.
pub const NO_REASON: Fault = Fault { errno: 5 };

impl From<Error> for Fault {
    fn from(error: Error) -> Fault {
        match error.raw_os_error() {
            Some(errno) if 0 < errno => Fault {
                errno: errno.cast_unsigned(),
            },
            _ => NO_REASON,
        }
    }
}

// Whether the call is to be made again: a signal came before a byte moved, or a descriptor that does not wait had nothing to give or no room.
pub(crate) fn is_passing(error: &Error) -> bool {
    matches!(error.kind(), ErrorKind::Interrupted | ErrorKind::WouldBlock)
}
