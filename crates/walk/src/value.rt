// The value behind a key's `=`, and what is kept of it. A number's digits are read while its end is sought. Right because a digit run that no word
// byte follows is the whole word run; any other value is looked at again from its start.
ghost use Rattle.std.specs.Prelude.{◌≡◌, ◌≤◌, ◌<◌, IfSome, length};
ghost use Rattle.text.specs.Class.{in_class};
ghost use Rattle.text.specs.Run.{run_start};
ghost use Rattle.text.specs.Table.{table};
ghost use Rattle.text.specs.declared.class.Class.TheVariants.{NotClose};
ghost use Rattle.pairs.specs.Pair.{value_end};
ghost use Rattle.walk.specs.Kept.{digits_start, kept_number, kept_in, value_of, base_of, limit_of, DigitsRead, Short};

use pairs::keys::Form;
use pairs::pair::{Span, value_end};
use text::number::{SHORT, decimal, digits_from, hex, within};
use text::table::{is_word_at, word_end};

// What is kept of a value: the number that it says, or where it stands.
#[derive(Clone, Copy)]
pub enum Kept {
    Number(u64),
    Part(Span),
}

// Where a value ends, and what is kept of it: nothing of an unreadable number.
#[derive(Clone, Copy)]
pub struct Value {
    pub end: usize,
    pub kept: Option<Kept>,
}

// A run of at most `SHORT` digits: where it ends, and its value.
#[derive(Clone, Copy)]
pub struct Digits {
    pub end: usize,
    pub value: u64,
}

// The value from v on, read as a form. Asked for: where no `]` stands any more.
pub fn value_at(s: &[u8], t: &[u8; 256], v: usize, form: Form, tail: usize) -> Option<Value>
    requires { (t.now ≡ table) × (v ≤ length s.now) × (tail ≡ run_start (in_class NotClose) s.now) }
    ensures { result ≡ value_of s.now form v (value_end s.now v) }
{
    if let Some(value) = short_number(s, t, v, form) {
        return Some(value);
    }
    let end = value_end(s, v, word_end(s, t, v), tail)?;
    Some(Value {
        end,
        kept: keep(s, v, end, form),
    })
}

// A number of at most `SHORT` digits; none where the value may be anything else.
fn short_number(s: &[u8], t: &[u8; 256], v: usize, form: Form) -> Option<Value>
    requires { (t.now ≡ table) × (v ≤ length s.now) }
    ensures { Short s.now form v result }
{
    let Numeral { base, limit } = numeral_of(form)?;
    let from = digits_start(s, v, base);
    let Digits { end, value } = digits_at(s, t, from, base);
    if end == from {
        return None;
    }
    if is_word_at(s, t, end) {
        return None;
    }
    Some(Value {
        end,
        kept: keep_number(within(value, limit)),
    })
}

// Where the digits of a value from v on start: behind a `0x` of a hex number.
fn digits_start(s: &[u8], v: usize, base: u64) -> usize
    requires { v ≤ length s.now }
    ensures { result ≡ digits_start s.now v base }
{
    if base != 16 {
        return v;
    }
    v + digits_from(&s[v..])
}

// Digits from a place on, `SHORT` at most. The index is counted by hand, as where it stops is half of the answer.
fn digits_at(s: &[u8], t: &[u8; 256], from: usize, base: u64) -> Digits
    requires { (t.now ≡ table) × (from ≤ length s.now) × (base ≤ 16) }
    ensures { DigitsRead s.now base from result }
{
    let mut value: u64 = 0;
    let mut j = from;
    while j < s.len() {
        let d = u64::from(t[s[j] as usize]);
        if base <= d {
            break;
        }
        if SHORT <= j - from {
            break;
        }
        value = value * base + d;
        j += 1;
    }
    Digits { end: j, value }
}

// What is kept of the value from v to e.
#[tactic(auto, unfolding(crate::specs::Kept::kept_in))]
fn keep(s: &[u8], v: usize, e: usize, form: Form) -> Option<Kept>
    requires { (v ≤ e) × (e ≤ length s.now) }
    ensures { result ≡ kept_in form s.now v e }
{
    match form {
        Form::Decimal(limit) => keep_number(decimal(&s[v..e], limit)),
        Form::Hex(limit) => keep_number(hex(&s[v..e], limit).ok()),
        Form::Text | Form::Dwords => Some(Kept::Part(Span { from: v, to: e })),
    }
}

// A number that was read, or nothing.
#[tactic(auto, unfolding(crate::specs::Kept::kept_number))]
fn keep_number(number: Option<u64>) -> Option<Kept>
    ensures { result ≡ kept_number number }
{
    Some(Kept::Number(number?))
}

// What a number is read in: its base, and the largest that it may be.
#[derive(Clone, Copy)]
struct Numeral {
    base: u64,
    limit: u64,
}

// Of a form that is a number.
#[tactic(auto, unfolding(crate::specs::Kept::base_of, crate::specs::Kept::limit_of))]
fn numeral_of(form: Form) -> Option<Numeral>
    ensures { IfSome result (λ n. (n.base ≡ base_of form) × (n.limit ≡ limit_of form) × (0 < n.base) × (n.base ≤ 16)) }
{
    match form {
        Form::Decimal(limit) => Some(Numeral { base: 10, limit }),
        Form::Hex(limit) => Some(Numeral { base: 16, limit }),
        Form::Text | Form::Dwords => None,
    }
}
