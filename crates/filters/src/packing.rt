// A unit packed: the record of its entry, or the row that tells why there is none.
ghost use Rattle.std.specs.Prelude.{◌≡◌, ◌+◌, ◌≤◌, length};
ghost use Rattle.refusal.specs.Number.{number_of};
ghost use Rattle.units.specs.Feeding.{text_length};
ghost use Rattle.filters.specs.declared.Filter.TheVariants as F;
ghost use Rattle.filters.specs.Seen as S;
ghost use Rattle.filters.specs.Bounds.{Room};
ghost use Rattle.filters.specs.Rows.{Told, RecordPut, Recorded};
ghost use Rattle.filters.specs.Calls.{CutPut};

use crate::Run;
use entry::Entry;
use listing_rows::at::put_refused;
use refusal::Refusal;
use scan::Pieces;
use stream::read_unit;
use units::Unit;
use writer::write;

// A line's record, or a record as it is: what is accepted as one is what writing its entry gives. Asked for: that the unit's bytes stand in
// the buffer, and room for a record and its row, which `turn` and `finish` have seen to.
pub fn pack_unit(
    cut: Unit,
    pieces: Pieces,
    unit: &[u8],
    out: &mut [u8],
    told: &mut [u8],
    run: Run,
) -> Run
    requires { (text_length cut ≤ length unit.now) × (Room (length out.old) (length told.old) run) }
    ensures { CutPut (F.Pack pieces) cut unit.now out.old told.old run out.new told.new result }
{
    let size = text_size(cut);
    let mut slots = [0u32; 256];
    match read_unit(cut, pieces, unit, &mut slots) {
        Ok(Some(e)) => put_record(&unit[..size], e, &slots, out, run),
        Err(refusal) => tell(told, run, refusal),
        Ok(None) => run,
    }
}

// How many bytes of a unit stand in the buffer to be read.
#[tactic(auto, unfolding(units::specs::Feeding::text_length))]
fn text_size(cut: Unit) -> usize
    ensures { result ≡ text_length cut }
{
    match cut {
        Unit::Text(n) => n,
        Unit::Long | Unit::Cut | Unit::Open | Unit::Alien => 0,
    }
}

// The record of an entry that has one.
fn put_record(text: &[u8], e: Entry, dwords: &[u32], out: &mut [u8], run: Run) -> Run
    requires { (run.at + 5227 ≤ length out.old) × (Recorded text.now e dwords.now) }
    ensures { RecordPut text.now e dwords.now out.old run out.new result }
{
    let at = run.at;
    let Ok(n) = write(text, e, dwords, &mut out[at..]) else {
        return run;
    };
    Run {
        at: at + n,
        counts: run.counts.with(Ok(Some(e))),
        ..run
    }
}

// The row of a unit that is refused.
fn tell(told: &mut [u8], run: Run, refusal: Refusal) -> Run
    requires { run.told + 64 ≤ length told.old }
    ensures { Told (S.Refused (number_of refusal)) told.old run told.new result }
{
    let counts = run.counts.with(Err(refusal));
    let end = put_refused(told, run.told, counts.units, refusal.number());
    Run {
        told: end,
        counts,
        ..run
    }
}
