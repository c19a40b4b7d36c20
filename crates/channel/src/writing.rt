// Writing: all of a text, or how much of it and why no more.
ghost use Rattle.std.specs.Prelude.{length};
ghost use Rattle.channel.specs.Moving.{Took, Written};

use crate::fault::{Fault, NO_REASON, is_passing};
use std::io;

// A write that failed, and how many bytes were written before.
#[derive(Clone, Copy, Debug, PartialEq, Eq)]
pub struct Cut {
    pub bytes: usize,
    pub fault: Fault,
}

// All of the buffer, from one write to the next; how many bytes that are.
pub fn write_whole<W: io::Write>(to: &mut W, buf: &[u8]) -> Result<usize, Cut>
    ensures { Written (length buf.now) result }
{
    let mut bytes = 0;
    while bytes < buf.len() {
        match write_some(to, &buf[bytes..]) {
            Ok(n) => bytes += n,
            Err(fault) => return Err(Cut { bytes, fault }),
        }
    }
    Ok(bytes)
}

// Some of the buffer, at least a byte. A write that takes nothing is a failure: made again, it might take nothing for ever.
fn write_some<W: io::Write>(to: &mut W, buf: &[u8]) -> Result<usize, Fault>
    ensures { Took (length buf.now) result }
{
    for _ in 0..u64::MAX {
        match to.write(buf) {
            Ok(0) => return Err(NO_REASON),
            Ok(n) => return Ok(n),
            Err(error) if is_passing(&error) => {}
            Err(error) => return Err(error.into()),
        }
    }
    Err(NO_REASON)
}
