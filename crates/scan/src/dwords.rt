// A payload's dwords into the lent slots: numbers 15, 18, 16 and 17.
ghost use Rattle.std.specs.Prelude.{◌≡◌, ◌≤◌, ◌<◌, length, None};
ghost use Rattle.text.specs.Quote.{bytes};
ghost use Rattle.text.specs.Table.{table};
ghost use Rattle.pairs.specs.Pair.{last_pair, span};
ghost use Rattle.pairs.specs.Data.{filled};
ghost use Rattle.scan.specs.Dwords.{refuses, DataRead};

use crate::Pieces;
use pairs::dwords::take_dwords;
use pairs::pair::Span;
use refusal::Refusal;

// The dwords wait in an array of its own, and all is judged before the first slot is written. Asked for: where the last pair of `data` has its value.
pub fn read_data(
    p: &[u8],
    t: &[u8; 256],
    value: Option<Span>,
    pieces: Pieces,
    slots: &mut [u32],
) -> Result<usize, Refusal>
    requires { (t.now ≡ table) × (value ≡ last_pair p.now (bytes "data")) }
    ensures { DataRead pieces p.now slots.old slots.new result }
{
    let Span { from, to } = value.ok_or(Refusal::NoData)?;
    if p[from] != b'[' {
        return Err(Refusal::NoData);
    }
    let mut own = [0u32; 256];
    let tally = take_dwords(&p[from + 1..to - 1], t, &mut own);
    if refuse_bad(pieces, tally.bad) {
        return Err(Refusal::BadPiece);
    }
    let n = tally.dwords;
    if 256 < n {
        return Err(Refusal::ManyDwords);
    }
    if slots.len() < n {
        return Err(Refusal::FewSlots);
    }
    copy(&own[..n], slots);
    Ok(n)
}

// Dwords into the first slots, the rest as found. Asked for: a slot for each.
pub fn copy(dwords: &[u32], slots: &mut [u32])
    requires { length dwords.now ≤ length slots.old }
    ensures { slots.new ≡ filled dwords.now slots.old }
{
    text::copy::copy(dwords, &mut slots[..dwords.len()]);
}

// Is a line refused, by whether a piece of its data is bad?
fn refuse_bad(pieces: Pieces, bad: bool) -> bool
    ensures { result ≡ refuses pieces bad }
{
    match pieces {
        Pieces::Strict => bad,
        Pieces::Lenient => false,
    }
}
