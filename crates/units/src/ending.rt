// Where a unit ends that begins at a place.
ghost use Rattle.std.specs.Prelude.{◌≤◌, ◌<◌, length, ◌≡◌};
ghost use Rattle.units.specs.Counting.{UnitEnds, RecordEnds};
ghost use Rattle.units.specs.Feeding.{end_in};

use crate::Framing;
use crate::growing::line_end;
use crate::keeping::{marks, stated};
use text::place::byte_at;

// Asked for: a byte at the place; `units_in` goes on while one is left.
pub fn unit_end(framing: Framing, s: &[u8], from: usize) -> Option<usize>
    requires { from < length s.now }
    ensures { UnitEnds framing s.now from (end_in s.now result) }
{
    if marks(framing, byte_at(s, from)) {
        return record_end(s, from);
    }
    line_end(s, from)
}

fn record_end(s: &[u8], from: usize) -> Option<usize>
    requires { from < length s.now }
    ensures { RecordEnds s.now from (end_in s.now result) }
{
    let size = stated(&s[from..]);
    if s.len() - from < size {
        return None;
    }
    Some(from + size)
}
