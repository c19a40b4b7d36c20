// The dwords of a bracketed value. A piece as the kernel prints it, `0x` and eight digits, is read by its places. Right because no byte of it is a comma,
// so that it ends where the next comma-space stands or the text; and a sum of entries is below 128 only where each is a digit's.
ghost use Rattle.std.specs.Prelude.{◌≡◌, ◌+◌, ◌≤◌, ◌<◌, length, take, drop, IfSome, Some};
ghost use Rattle.text.specs.Number.{number_of};
ghost use Rattle.text.specs.Table.{table};
ghost use Rattle.pairs.specs.Data.{Bracketed, comma_space, EndsPiece, piece_of, PieceHere, Taken, NthPiece};

use crate::pair::Span;
use text::number::{MAX_32, hex};
use text::place::byte_at;
use text::run::until;
use text::word::two;

// A piece by its end and its dword, none where it is bad.
#[derive(Clone, Copy)]
pub struct NextPiece {
    pub end: usize,
    pub dword: Option<u32>,
}

// How many dwords the pieces are, and whether one of the pieces is bad: both stand, as lenient takes the dwords all the same.
#[derive(Clone, Copy)]
pub struct Tally {
    pub dwords: usize,
    pub bad: bool,
}

// What stands between the brackets of a value that is `[`, one or more bytes other than `]`, `]`.
#[tactic(auto, using(crate::proofs::Slots::bracketed), unfolding(crate::specs::Data::inside_of, text::specs::Class::in_class))]
pub fn inside(value: &[u8]) -> Option<Span>
    ensures { Bracketed value.now result }
{
    if byte_at(value, 0) != b'[' {
        return None;
    }
    let c = until(value, b']', 1);
    (1 < c && c + 1 == value.len()).then_some(Span { from: 1, to: c })
}

// The dwords that the pieces between the brackets are, from the first place on; those past the last place are counted and not kept. A bad piece adds
// none. A call of its own, since inlined its loop runs out of registers: 4 instructions a dword.
#[inline(never)]
pub fn take_dwords(inner: &[u8], t: &[u8; 256], own: &mut [u32; 256]) -> Tally
    requires { (t.now ≡ table) × (length own.old ≡ 256) }
    ensures { Taken inner.now own.old own.new result }
{
    let mut n = 0;
    let mut bad = false;
    let mut at = 0;
    loop {
        let piece = piece_at(inner, t, at);
        if let Some(dword) = piece.dword {
            if n < 256 {
                own[n] = dword;
            }
            n += 1;
        } else {
            bad = true;
        }
        if piece.end == inner.len() {
            return Tally { dwords: n, bad };
        }
        at = piece.end + 2;
    }
}

// The piece from a place on. One as the kernel prints it is read by its places; any other is looked at again from its start.
fn piece_at(inner: &[u8], t: &[u8; 256], at: usize) -> NextPiece
    requires { (t.now ≡ table) × (at ≤ length inner.now) }
    ensures { PieceHere inner.now at result }
{
    if let Some(dword) = printed(inner, t, at) {
        return NextPiece {
            end: at + 10,
            dword: Some(dword),
        };
    }
    let end = piece_end(inner, at);
    NextPiece {
        end,
        dword: read_piece(&inner[at..end]),
    }
}

// `0x` and `, ` as numbers.
const PREFIX: u64 = 0x7830;

pub const COMMA_SPACE: u64 = 0x202c;

// The dword of a piece as the kernel prints it, `0x` and eight digits, with `, ` or the end of the text behind them; none for any other.
fn printed(s: &[u8], t: &[u8; 256], at: usize) -> Option<u32>
    requires { (t.now ≡ table) × (at ≤ length s.now) }
    ensures { IfSome result (λ v. PieceHere s.now at (record { end = at + 10; dword = Some v })) }
{
    if s.len() < at + 10 {
        return None;
    }
    if two(s, at) != PREFIX {
        return None;
    }
    if s.len() != at + 10 {
        if s.len() < at + 12 {
            return None;
        }
        if two(s, at + 10) != COMMA_SPACE {
            return None;
        }
    }
    eight_digits(s, t, at + 2)
}

// The number of eight hex digits, none where one is no digit: its entry is 128 or more, and so is the sum then.
fn eight_digits(s: &[u8], t: &[u8; 256], at: usize) -> Option<u32>
    requires { (t.now ≡ table) × (at + 8 ≤ length s.now) }
    ensures { IfSome result (λ v. number_of 16 4294967295 (take 8 (drop at s.now)) ≡ Some v) }
{
    let mut v: u64 = 0;
    let mut sum: u64 = 0;
    for k in 0..8 {
        let d = u64::from(t[s[at + k] as usize]);
        v = v * 16 + d;
        sum += d;
    }
    if 128 <= sum {
        return None;
    }
    Some(v as u32)
}

// The piece of that number, from 0. A loop of its own: each piece says where the next one begins.
pub fn nth_piece(inner: &[u8], i: usize) -> Option<Span>
    ensures { NthPiece inner.now i result }
{
    let mut left = i;
    let mut at = 0;
    loop {
        let to = piece_end(inner, at);
        if left == 0 {
            return Some(Span { from: at, to });
        }
        if to == inner.len() {
            return None;
        }
        left -= 1;
        at = to + 2;
    }
}

// A piece is a dword where it is hex of 32 bits.
fn read_piece(piece: &[u8]) -> Option<u32>
    ensures { result ≡ piece_of piece.now }
{
    let v = hex(piece, MAX_32).ok()?;
    Some(v as u32)
}

// Where the piece from a place on ends: at the next comma-space, else with the text.
pub fn piece_end(inner: &[u8], from: usize) -> usize
    requires { from ≤ length inner.now }
    ensures { EndsPiece inner.now from result }
{
    for k in from..inner.len() {
        if is_comma_space(inner, k) {
            return k;
        }
    }
    inner.len()
}

#[tactic(auto, unfolding(crate::specs::Data::comma_space))]
fn is_comma_space(l: &[u8], k: usize) -> bool
    requires { k < length l.now }
    ensures { result ≡ comma_space l.now k }
{
    l[k] == b',' && byte_at(l, k + 1) == b' '
}
