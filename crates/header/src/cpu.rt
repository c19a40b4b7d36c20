// The CPU: three digits in brackets.
ghost use Rattle.std.specs.Prelude.{◌≡◌, ◌<◌, length};
ghost use Rattle.header.specs.Cpu.{cpu_at, cpu_of};

use text::class::is_digit;
use text::number::decimal;
use text::place::{byte_at, first};

// The number between the first brackets that hold just three digits. The walk goes from bracket to bracket: all else is passed over by one
// search.
pub fn parse_cpu(h: &[u8]) -> Option<u64>
    ensures { result ≡ cpu_of h.now }
{
    let mut i = 0;
    while let Some(k) = first(h, b'[', i) {
        if is_cpu(h, k) {
            return decimal(&h[k + 1..k + 4], 999);
        }
        i = k + 1;
    }
    None
}

#[tactic(auto, unfolding(crate::specs::Cpu::cpu_at))]
fn is_cpu(h: &[u8], i: usize) -> bool
    requires { i < length h.now }
    ensures { result ≡ cpu_at h.now i }
{
    byte_at(h, i) == b'['
        && is_digit(byte_at(h, i + 1))
        && is_digit(byte_at(h, i + 2))
        && is_digit(byte_at(h, i + 3))
        && byte_at(h, i + 4) == b']'
}
