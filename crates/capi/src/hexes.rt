// Why a hex number of a line could not be read. A line without a payload answers its number, 1 to 4.
// C's interface: the structs' numbers are its layout, and strict and lenient are two names.
ghost use Rattle.std.specs.Prelude.{◌≡◌, ◌≤◌, IfOk, IfSome};
ghost use Rattle.refusal.specs.Told.{told_maybe};
ghost use Rattle.reasons.specs.Reasons.{piece_answer};
ghost use Rattle.capi.specs.Hexes.{hex_by, word_of, value_in, bad_in, key_numbered, key_told};

use reasons::payload::payload_of;
use reasons::{HexText, Key, ask_key, ask_piece};
use refusal::Refusal;
use text::number::BadNumber;

// Number 0 and what the text reads as (1 a value, 2 empty, 3 a bad digit, 4 too wide), with the value or the bad digit's place in the text, and
// where the text stands in the line; or 0 for absent, with the number that refuses the line if there is one. What is not there is 0.
#[repr(C)]
#[derive(Clone, Copy, Default)]
pub struct HexAnswer {
    pub number: u8,
    pub what: u8,
    pub value: u64,
    pub bad: usize,
    pub at: usize,
    pub len: usize,
}

// What the line's last pair of a key says. A number that names no key is absent on every line that has a payload.
pub fn ck_hex_key(line: &[u8], key: u8) -> HexAnswer
    ensures { result ≡ hex_by (key_told line.now (key_numbered key)) }
{
    hex_answer(ask_numbered(line, key))
}

// What a piece of the line's data says, by its number from 0.
pub fn ck_hex_piece(line: &[u8], piece: usize) -> HexAnswer
    ensures { result ≡ hex_by (piece_answer line.now piece) }
{
    hex_answer(ask_piece(line, piece))
}

// `Key` and the number are both of other crates, so no `TryFrom` can be written here.
#[tactic(auto, unfolding(crate::specs::Hexes::key_numbered))]
fn key_of(number: u8) -> Option<Key>
    ensures { result ≡ key_numbered number }
{
    match number {
        1 => Some(Key::Route),
        2 => Some(Key::Offset),
        3 => Some(Key::Error),
        4 => Some(Key::Config),
        5 => Some(Key::Unplug),
        _ => None,
    }
}

// A key that the line reader does not read as hex is never there.
#[tactic(auto, unfolding(crate::specs::Hexes::key_told, crate::specs::Hexes::other_key))]
fn ask_numbered(line: &[u8], number: u8) -> Result<Option<HexText>, Refusal>
    ensures { told_maybe result ≡ key_told line.now (key_numbered number) }
{
    match key_of(number) {
        Some(key) => ask_key(line, key),
        None => payload_of(line).and(Ok(None)),
    }
}

// A text never ends before it starts.
#[tactic(auto, unfolding(crate::specs::Hexes::hex_by))]
fn hex_answer(answer: Result<Option<HexText>, Refusal>) -> HexAnswer
    requires { IfOk answer (λ o. IfSome o (λ text. text.from ≤ text.to)) }
    ensures { result ≡ hex_by (told_maybe answer) }
{
    match answer {
        Ok(Some(text)) => {
            let (what, value, bad) = words_of(text.reading);
            HexAnswer {
                number: 0,
                what,
                value,
                bad,
                at: text.from,
                len: text.to - text.from,
            }
        }
        Ok(None) => HexAnswer::default(),
        Err(refusal) => HexAnswer {
            number: refusal.number(),
            ..HexAnswer::default()
        },
    }
}

// What a text reads as, its value, and the place of its first bad digit.
fn words_of(reading: Result<u64, BadNumber>) -> (u8, u64, usize)
    ensures { result ≡ (word_of reading, value_in reading, bad_in reading) }
{
    match reading {
        Ok(value) => (1, value, 0),
        Err(BadNumber::Empty) => (2, 0, 0),
        Err(BadNumber::BadDigit(bad)) => (3, 0, bad),
        Err(BadNumber::TooWide) => (4, 0, 0),
    }
}
