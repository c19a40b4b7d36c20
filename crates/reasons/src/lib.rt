// Why a hex number of a line could not be read: a call of its own, which answers on every line that has a payload, refused ones too.
//
//     ask_key     what a line's last pair of a hex key says
//     ask_piece   what a piece of its data says
//     payload_of  where its payload stands
#![tactic(auto)]

pub mod payload;

ghost use Rattle.std.specs.Prelude.{◌≡◌, ◌+◌, ◌^◌, ◌<◌, length};
ghost use Rattle.std.specs.Prelude.{Ok};
ghost use Rattle.refusal.specs.Told.{told_maybe};
ghost use Rattle.reasons.specs.Reasons.{name_of, limit_of, key_answer, piece_answer, key_in, piece_in, SpanWithin, said_at};

use crate::payload::{Place, find_data, payload_of};
use pairs::dwords::nth_piece;
use pairs::pair::{Span, last_pair};
use refusal::Refusal;
use text::number::{BadNumber, MAX_8, MAX_16, MAX_32, MAX_64, hex};

// The keys of a line that are read as hex.
#[derive(Clone, Copy, Debug, PartialEq, Eq, Hash)]
pub enum Key {
    Route,
    Offset,
    Error,
    Config,
    Unplug,
}

impl Key {
    // Its name in a payload.
    #[tactic(auto, unfolding(crate::specs::Reasons::name_of))]
    pub fn name(self) -> &'static [u8]
        ensures { result.now ≡ name_of self }
    {
        match self {
            Key::Route => b"route",
            Key::Offset => b"offset",
            Key::Error => b"error",
            Key::Config => b"config",
            Key::Unplug => b"unplug",
        }
    }

    // The largest number of its width.
    pub fn limit(self) -> u64
        ensures { result ≡ limit_of self }
    {
        match self {
            Key::Route => MAX_64,
            Key::Offset => MAX_16,
            Key::Error => MAX_8,
            Key::Config => MAX_8,
            Key::Unplug => MAX_8,
        }
    }
}

// Where a text stands in the line, and what it reads as. A bad digit's place counts from the text's own start.
#[derive(Clone, Copy)]
pub struct HexText {
    pub from: usize,
    pub to: usize,
    pub reading: Result<u64, BadNumber>,
}

// The last pair of the key; none where the payload has none.
#[tactic(auto, using(crate::proofs::Said::key_there, crate::proofs::Said::key_refused))]
pub fn ask_key(line: &[u8], key: Key) -> Result<Option<HexText>, Refusal>
    ensures { told_maybe result ≡ key_answer line.now key }
{
    let Place { from, to } = payload_of(line)?;
    Ok(key_in(&line[from..to], from, key))
}

// The piece of that number, from 0; none behind the last piece, and where `data` is missing or not in brackets.
#[tactic(auto, using(crate::proofs::Said::piece_there, crate::proofs::Said::piece_refused))]
pub fn ask_piece(line: &[u8], i: usize) -> Result<Option<HexText>, Refusal>
    ensures { told_maybe result ≡ piece_answer line.now i }
{
    let Place { from, to } = payload_of(line)?;
    Ok(piece_in(&line[from..to], from, i))
}

// The last pair of the key in a payload that starts at a place of the line.
#[tactic(auto, using(crate::proofs::Said::pair_within), unfolding(crate::specs::Reasons::key_in))]
pub fn key_in(payload: &[u8], start: usize, key: Key) -> Option<HexText>
    requires { start + length payload.now < 2 ^ 64 }
    ensures { told_maybe (Ok result) ≡ key_in payload.now start key }
{
    read_at(payload, start, last_pair(payload, key.name()), key.limit())
}

#[tactic(auto, unfolding(crate::specs::Reasons::piece_in, crate::specs::Reasons::piece_at))]
fn piece_in(payload: &[u8], start: usize, i: usize) -> Option<HexText>
    requires { start + length payload.now < 2 ^ 64 }
    ensures { told_maybe (Ok result) ≡ piece_in payload.now start i }
{
    let Span { from, to } = find_data(payload)?;
    let inner = &payload[from..to];
    read_at(inner, start + from, nth_piece(inner, i), MAX_32)
}

// What stands at a span of a text that starts at a place of the line.
#[tactic(auto, unfolding(crate::specs::Reasons::said_at))]
fn read_at(s: &[u8], start: usize, span: Option<Span>, limit: u64) -> Option<HexText>
    requires { (start + length s.now < 2 ^ 64) × (SpanWithin s.now span) }
    ensures { told_maybe (Ok result) ≡ said_at limit start s.now span }
{
    let Span { from, to } = span?;
    Some(HexText {
        from: start + from,
        to: start + to,
        reading: hex(&s[from..to], limit),
    })
}
