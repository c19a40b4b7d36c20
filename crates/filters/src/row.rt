// The row of a line or a record.
ghost use Rattle.std.specs.Prelude.{◌≡◌, ◌+◌, ◌≤◌, length};
ghost use Rattle.refusal.specs.Told.{told, told_maybe};
ghost use Rattle.scan.specs.declared.Pieces.TheVariants.{Lenient};
ghost use Rattle.scan.specs.Parse.{parse_of};
ghost use Rattle.units.specs.Feeding.{text_length};
ghost use Rattle.filters.specs.Texts.{seen_by, seen_line, line_told};
ghost use Rattle.filters.specs.Rows.{RowPut};

use crate::Run;
use entry::Entry;
use listing_rows::at::{put_entry, put_refused};
use refusal::Refusal;
use scan::{Pieces, parse};
use units::Unit;

// The answer of a line that was cut off, read leniently. Asked for: that its bytes stand in the buffer. A stream of lines cuts off nothing else.
pub fn read_line(cut: Unit, unit: &[u8]) -> Result<Option<Entry>, Refusal>
    requires { text_length cut ≤ length unit.now }
    ensures { told_maybe result ≡ line_told cut unit.now }
{
    let Unit::Text(n) = cut else {
        return Ok(None);
    };
    Ok(Some(read_text(&unit[..n])?))
}

// A line's answer, read leniently.
#[tactic(auto, unfolding(crate::specs::Texts::seen_line))]
fn read_text(line: &[u8]) -> Result<Entry, Refusal>
    ensures answer { told result ≡ parse_of Lenient line.now 256 }
    ensures seen { seen_by (told result) ≡ seen_line Lenient line.now }
{
    let mut slots = [0u32; 256];
    parse(line, Pieces::Lenient, &mut slots)
}

// The row of the next unit, by its answer. Asked for: room for a row, which the callers in this crate have.
pub fn put_row(answer: Result<Option<Entry>, Refusal>, out: &mut [u8], run: Run) -> Run
    requires { run.at + 64 ≤ length out.old }
    ensures { RowPut (seen_by (told_maybe answer)) out.old run out.new result }
{
    let counts = run.counts.with(answer);
    let at = match answer {
        Ok(Some(e)) => put_entry(out, run.at, counts.units, e.kind, e.dwords as u64),
        Err(refusal) => put_refused(out, run.at, counts.units, refusal.number()),
        Ok(None) => run.at,
    };
    Run { at, counts, ..run }
}
