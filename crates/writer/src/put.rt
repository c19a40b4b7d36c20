// Bytes at a place of a buffer. What stands behind them is the place that is handed back.
ghost use Rattle.std.specs.Prelude.{◌+◌, ◌≤◌, length};
ghost use Rattle.writer.specs.Put.{Put};

use text::copy::copy;

pub(crate) fn put(out: &mut [u8], at: usize, bytes: &[u8]) -> usize
    requires { at + length bytes.now ≤ length out.old }
    ensures { Put out.old at bytes.now result out.new }
{
    let end = at + bytes.len();
    copy(bytes, &mut out[at..end]);
    end
}
