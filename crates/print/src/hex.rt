// Bytes and dwords in small hex digits.
ghost use Rattle.std.specs.Prelude.{◌≡◌, ◌%◌, ◌<◌};
ghost use Rattle.print.specs.Put.{Placed};
ghost use Rattle.print.specs.Hex.{hex_digit, byte_text, hex_text, dword_text};

use crate::put::put;

// The bytes of a text, two digits each.
pub fn put_hex(out: &mut [u8], at: usize, s: &[u8]) -> usize
    ensures { Placed out.old at (hex_text s.now) out.new result }
{
    if out.len() < at || (out.len() - at) / 2 < s.len() {
        return at;
    }
    let mut behind = at;
    for b in s {
        behind = put_byte(out, behind, *b);
    }
    behind
}

// A byte, two digits.
pub fn put_byte(out: &mut [u8], at: usize, b: u8) -> usize
    ensures { Placed out.old at (byte_text b) out.new result }
{
    put(out, at, &[digit(b / 16), digit(b % 16)])
}

// A dword, eight digits.
pub fn put_dword(out: &mut [u8], at: usize, d: u32) -> usize
    ensures { Placed out.old at (dword_text d) out.new result }
{
    put(
        out,
        at,
        &[
            nibble(d / 0x1000_0000),
            nibble(d / 0x100_0000),
            nibble(d / 0x10_0000),
            nibble(d / 0x1_0000),
            nibble(d / 0x1000),
            nibble(d / 0x100),
            nibble(d / 0x10),
            nibble(d),
        ],
    )
}

// The digit of a number's lowest four bits.
fn nibble(d: u32) -> u8
    ensures { result ≡ hex_digit (d % 16) }
{
    digit((d % 16) as u8)
}

pub fn digit(n: u8) -> u8
    requires { n < 16 }
    ensures { result ≡ hex_digit n }
{
    if n < 10 {
        return b'0' + n;
    }
    87 + n
}
