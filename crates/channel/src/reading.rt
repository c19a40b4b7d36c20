// Reading: the end of the input is told from a read that failed.
ghost use Rattle.std.specs.Prelude.{length};
ghost use Rattle.channel.specs.Moving.{Read, Held};

use crate::fault::{Fault, NO_REASON, is_passing};
use std::io;

// The next bytes of the input, so many, at least one; none where it ends. A read into an empty buffer is the end.
pub fn read_some<R: io::Read>(from: &mut R, buf: &mut [u8]) -> Result<Option<usize>, Fault>
    ensures { Read (length buf.old) result }
{
    for _ in 0..u64::MAX {
        match from.read(buf) {
            Ok(0) => return Ok(None),
            Ok(n) => return Ok(Some(n)),
            Err(error) if is_passing(&error) => {}
            Err(error) => return Err(error.into()),
        }
    }
    Err(NO_REASON)
}

// How much of the buffer was filled, until it is full or the input ends.
pub fn read_whole<R: io::Read>(from: &mut R, buf: &mut [u8]) -> Result<usize, Fault>
    ensures { Held (length buf.old) result }
{
    let mut done = 0;
    while done < buf.len() {
        let Some(n) = read_some(from, &mut buf[done..])? else {
            break;
        };
        done += n;
    }
    Ok(done)
}
