// Decimal and hex numbers within a width: one reader over base and limit, with a loop for up to sixteen digits and one for more. `leading` reads a digit
// run while its end is sought: right because digits that no digit follows are the whole run, and sixteen of them stay within 64 bits.
ghost use Rattle.std.specs.Prelude.{◌≡◌, cond, ◌≤◌, ◌<◌, ◌+◌, leb, length, Err};
ghost use Rattle.text.specs.Number.{digit_in, number_of, leading_of, reading_of, reason_of, digits_from, hex_of};
ghost use Rattle.std.specs.Result.{result_ok};

use crate::class::Class;
use crate::run::run_end;

// The largest value of each width.
pub const MAX_8: u64 = u8::MAX as u64;

pub const MAX_16: u64 = u16::MAX as u64;

pub const MAX_32: u64 = u32::MAX as u64;

pub const MAX_63: u64 = i64::MAX as u64;

pub const MAX_64: u64 = u64::MAX;

// The base of a decimal number.
const TEN: u64 = 10;

// So many digits of any base up to 16 stay within 64 bits.
pub const SHORT: usize = 16;

// Why a hex text is no number: no digit stands there; at this place stands a byte that is no digit; or the value is past the limit.
#[derive(Clone, Copy, Debug, PartialEq, Eq, Hash)]
pub enum BadNumber {
    Empty,
    BadDigit(usize),
    TooWide,
}

// Digits only, one or more, of value at most the limit.
pub fn decimal(s: &[u8], limit: u64) -> Option<u64>
    ensures { result ≡ number_of 10 limit s.now }
{
    read(s, 0, TEN, limit)
}

// The whole digit run from a place on, read as decimal. One of more than sixteen digits is read again from its start. Asked for: a place in the text,
// which `parse_pid` has of the dash that it found. The index is counted by hand, as it is asked for behind the loop.
pub fn leading(s: &[u8], from: usize, limit: u64) -> Option<u64>
    requires { from ≤ length s.now }
    ensures { result ≡ leading_of limit s.now from }
{
    let mut v: u64 = 0;
    let mut i = from;
    while i < s.len() {
        let Some(d) = digit_in(s[i], TEN) else { break };
        if SHORT <= i - from {
            let end = run_end(s, Class::Digit, from);
            return decimal(&s[from..end], limit);
        }
        v = v * TEN + d;
        i += 1;
    }
    if i == from { None } else { within(v, limit) }
}

// `0x` at most once, then one or more digits of either case, of value at most the limit. A bad digit's place counts the `0x`.
pub fn hex(s: &[u8], limit: u64) -> Result<u64, BadNumber>
    ensures { result ≡ hex_of limit s.now }
{
    let from = digits_from(s);
    match read(s, from, 16, limit) {
        Some(v) => Ok(v),
        None => Err(reason(s, from, 16)),
    }
}

// Behind a leading `0x`, else the start.
pub fn digits_from(s: &[u8]) -> usize
    ensures { result ≡ digits_from s.now }
{
    if s.starts_with(b"0x") { 2 } else { 0 }
}

// The digits from a place on: as many as always stay within 64 bits are read with no look at the limit until the end.
#[inline(always)]
fn read(s: &[u8], from: usize, base: u64, limit: u64) -> Option<u64>
    requires { (0 < base) × (base ≤ 16) }
    ensures { result ≡ result_ok (reading_of base limit from s.now) }
{
    if s.len() <= from {
        None
    } else if s.len() - from <= SHORT {
        read_short(s, from, base, limit)
    } else {
        read_long(s, from, base, limit)
    }
}

// At most sixteen digits: no value passes 16^16, so no sum wraps, and the limit is looked at once.
#[inline(always)]
fn read_short(s: &[u8], from: usize, base: u64, limit: u64) -> Option<u64>
    requires { (0 < base) × (base ≤ 16) × (from < length s.now) × (length s.now ≤ from + 16) }
    ensures { result ≡ result_ok (reading_of base limit from s.now) }
{
    let mut v: u64 = 0;
    for i in from..s.len() {
        v = v * base + digit_in(s[i], base)?;
    }
    within(v, limit)
}

// The limit is divided once: a value above the quotient has no room for any further digit, and for one that is not, the product stays within the
// limit, so no sum wraps however many digits there are. What is no number is given up at once; why, `reason` says.
fn read_long(s: &[u8], from: usize, base: u64, limit: u64) -> Option<u64>
    requires { (0 < base) × (base ≤ 16) × (from < length s.now) }
    ensures { result ≡ result_ok (reading_of base limit from s.now) }
{
    let most = limit / base;
    let mut v: u64 = 0;
    for i in from..s.len() {
        let d = digit_in(s[i], base)?;
        if most < v {
            return None;
        }
        if limit - v * base < d {
            return None;
        }
        v = v * base + d;
    }
    Some(v)
}

// A value, unless it is past the limit.
#[tactic(auto, unfolding(crate::specs::Number::value_within))]
pub fn within(v: u64, limit: u64) -> Option<u64>
    ensures { result ≡ cond (leb v limit) (Some v) None }
{
    (v <= limit).then_some(v)
}

// Why the digits from a place on are no number: there are none; or the first bad one, which goes before width however late it stands; or else width.
fn reason(s: &[u8], from: usize, base: u64) -> BadNumber
    requires { base ≤ 16 }
    ensures { Err result ≡ reason_of base from s.now }
{
    if s.len() <= from {
        return BadNumber::Empty;
    }
    for i in from..s.len() {
        if digit_in(s[i], base).is_none() {
            return BadNumber::BadDigit(i);
        }
    }
    BadNumber::TooWide
}

// The value of a digit of the base, of either case.
#[tactic(auto, unfolding(crate::specs::Number::digit_in, crate::specs::Number::digit_of, crate::specs::Class::is_digit, crate::specs::Class::between))]
fn digit_in(b: u8, base: u64) -> Option<u64>
    requires { base ≤ 16 }
    ensures { result ≡ digit_in base b }
{
    let d = u64::from(if b.is_ascii_digit() {
        b - b'0'
    } else if (b'a'..=b'f').contains(&b) {
        b - b'a' + 10
    } else if (b'A'..=b'F').contains(&b) {
        b - b'A' + 10
    } else {
        return None;
    });
    (d < base).then_some(d)
}
