// Bit ranges of a dword: bits `low` to `high`, counted from 0 at the low end, both ends in.
#![tactic(auto)]

ghost use Rattle.std.specs.Prelude.{◌≡◌, ◌-◌, ◌≤◌, ◌<◌, ◌^◌};
ghost use Rattle.bits.specs.Range.{range_of};

// The value of bits `low` to `high` of `dword`, and 0 unless low ≤ high ≤ 31. A shift and a mask; no loop.
pub fn range(dword: u32, low: u8, high: u8) -> u32
    ensures { result ≡ range_of dword low high }
{
    if low <= high && high <= 31 {
        (dword >> low) & ones(high - low + 1)
    } else {
        0
    }
}

// The lowest `width` bits set. A width of 32 shifts by 0, so it is no case of its own.
fn ones(width: u8) -> u32
    requires { (0 < width) × (width ≤ 32) }
    ensures { result ≡ 2 ^ width - 1 }
{
    0xffff_ffff >> (32 - width)
}
