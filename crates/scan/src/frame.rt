// What a line must be before its parts are looked at: numbers 1 to 4.
ghost use Rattle.std.specs.Prelude.{◌≡◌, length};
ghost use Rattle.scan.specs.High.{is_nothing, Level};
ghost use Rattle.refusal.specs.Told.{told};
ghost use Rattle.scan.specs.Frame.{idle, first_high, frame_of};

use refusal::Refusal;
use text::place::last;

// So many bytes a line may have.
const LONGEST: usize = 4096;

// The first byte that is none of ASCII.
const HIGH: u8 = 128;

// So many bytes at a time are looked at for a high one.
const STRIDE: usize = 32;

// The last colon, which parts header from payload.
pub fn read_frame(line: &[u8]) -> Result<usize, Refusal>
    ensures { told result ≡ frame_of line.now }
{
    if is_idle(line) {
        return Err(Refusal::Idle);
    }
    if LONGEST < line.len() {
        return Err(Refusal::LongLine);
    }
    if !none_high(line) {
        return Err(Refusal::NotAscii);
    }
    last(line, b':').ok_or(Refusal::NoColon)
}

// Empty, a newline alone, or a comment.
#[tactic(auto, unfolding(crate::specs::Frame::idle))]
fn is_idle(line: &[u8]) -> bool
    ensures { result ≡ idle line.now }
{
    matches!(line, [] | [b'\n'] | [b'#', ..])
}

// Is every byte below 128? Whole blocks of 32, and the last 32 bytes once more, so that the compiler has no odd bytes to walk behind a block. Right
// because fewer than 32 bytes lie behind the whole blocks, and the last 32 have them all. A line of fewer than two blocks is not worth the cut.
fn none_high(s: &[u8]) -> bool
    ensures { result ≡ is_nothing (first_high s.now) }
{
    let n = s.len();
    if n < 2 * STRIDE {
        return max_byte(s) < HIGH;
    }
    let whole = n - n % STRIDE;
    if HIGH <= max_byte(&s[..whole]) {
        return false;
    }
    max_byte(&s[n - STRIDE..]) < HIGH
}

// The largest byte; asked for is whether it is below 128, which is so exactly where every byte is. A running maximum is made one for sixteen bytes at
// a time by the compiler; a comparison of each byte with 128 is not.
fn max_byte(s: &[u8]) -> u8
    ensures { Level s.now (length s.now) result }
{
    let mut m = 0;
    for &b in s {
        if m < b {
            m = b;
        }
    }
    m
}
