// What is kept of an open unit, and whether some stream leaves it so.
ghost use Rattle.std.specs.Prelude.{◌≡◌, ◌≤◌};
ghost use Rattle.units.specs.Units.{marked, stated as statedOf};
ghost use Rattle.units.specs.Kept.{is_left, line_left};

use crate::Framing;
use text::place::{byte_at, first};

// A unit that starts with this byte is a record.
pub fn marks(framing: Framing, first: u8) -> bool
    ensures { result ≡ marked framing first }
{
    match framing {
        Framing::Lines => false,
        Framing::Both => first == 0xA1,
    }
}

// How many bytes a record says it has, its first three with them.
pub fn stated(unit: &[u8]) -> usize
    ensures { (result ≡ statedOf unit.now) × (result ≤ 65538) }
{
    3 + usize::from(u16::from_le_bytes([byte_at(unit, 1), byte_at(unit, 2)]))
}

// Does a stream leave this of its open unit, with so many bytes passed?
pub fn is_left(framing: Framing, kept: &[u8], passed: usize) -> bool
    ensures { result ≡ is_left framing kept.now passed }
{
    if !marks(framing, byte_at(kept, 0)) {
        return passed == 0 && line_left(kept);
    }
    let size = stated(kept);
    if 5227 < size {
        return kept.len() == 3 && passed < size - 3;
    }
    passed == 0 && kept.len() < size
}

fn line_left(kept: &[u8]) -> bool
    ensures { result ≡ line_left kept.now }
{
    kept.len() <= 4097 && first(kept, b'\n', 0).is_none()
}
