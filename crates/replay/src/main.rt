// Answers frames of standard input: each is its length and the dword slots lent, four bytes each, low byte first, a byte for the choice,
// then the line. For each it writes a row with every field of the line's entry, or the number that refuses it.
#![tactic(auto)]

ghost use Rattle.oracle_line_rows.specs.Lent.{RowsKept};

use channel::streams::streams_of;
use oracle_line_rows::put_answer;
use oracle_line_rows::rows::Rows;
use scan::Pieces;
use tlv::four_at;

fn main(rt: HostRuntime) {
    let mut line = [0u8; 8192];
    let mut slots = [0u32; 1024];
    let mut out = [0u8; 65536];
    Rows::new(streams_of(&rt), &mut out).answer_all(|rows| answer_frame(
        rows, &mut line, &mut slots,
    ));
}

// A frame longer than the line buffer, or cut short, ends the run. A row of the longest line takes two digits a byte of task and function, nine
// characters a dword, and some 400 for the rest.
fn answer_frame(rows: &mut Rows, line: &mut [u8], slots: &mut [u32]) -> Option<()>
    ensures { RowsKept rows.old rows.new }
{
    let head = rows.read::<9>()?;
    let line = line.get_mut(..four_at(&head, 0) as usize)?;
    rows.fill(line)?;
    let lent = slots.len().min(four_at(&head, 4) as usize);
    rows.make_room(16_384);
    put_answer(&mut rows.page, line, choice(head[8]), &mut slots[..lent]);
    Some(())
}

// Lenient is 0. Every other byte is strict, which is what holds where nothing is asked for.
fn choice(b: u8) -> Pieces {
    if b == 0 {
        return Pieces::Lenient;
    }
    Pieces::Strict
}
