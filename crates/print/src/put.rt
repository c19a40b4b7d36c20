// A text or a number into a lent buffer at a place: whole where it fits, else nothing. The place behind it is handed back.
ghost use Rattle.text.specs.Decimal.{decimal_text};
ghost use Rattle.print.specs.Put.{Placed};

use crate::digits::digits_of;
use text::copy::copy;

// The bytes of a text.
pub fn put(out: &mut [u8], at: usize, s: &[u8]) -> usize
    ensures { Placed out.old at s.now out.new result }
{
    if out.len() < at || out.len() - at < s.len() {
        return at;
    }
    let end = at + s.len();
    copy(s, &mut out[at..end]);
    end
}

// A number in decimal.
pub fn put_decimal(out: &mut [u8], at: usize, n: u64) -> usize
    ensures { Placed out.old at (decimal_text n) out.new result }
{
    let digits = digits_of(n);
    put(out, at, digits.text())
}
