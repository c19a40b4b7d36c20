// Answers frames of standard input: each is the length of a record, the dword slots and the bytes lent, two bytes each, which number of its entry is
// set before it is written again, one byte, and to what, eight bytes, low byte first; then the record. For each it writes a row with every field of
// the record's entry and what writing it again gives, or the number that refuses it.
#![tactic(auto)]

ghost use Rattle.oracle_line_rows.specs.Lent.{RowsKept};

use channel::streams::streams_of;
use oracle_line_rows::rows::Rows;
use oracle_record_rows::put_record;
use oracle_record_rows::set::Change;
use tlv::{byte_at, eight_at, two_at};

fn main(rt: HostRuntime) {
    let mut text = [0u8; 8192];
    let mut out = [0u8; 65536];
    Rows::new(streams_of(&rt), &mut out).answer_all(|rows| answer_frame(rows, &mut text));
}

// A frame longer than the text buffer, or cut short, ends the run. Slots and room are as new for each record, so that a row does not hang on the
// frames before it. A row of the longest record takes two digits a byte of task and function, and of the record again, nine characters a dword,
// and some 400 for the rest.
fn answer_frame(rows: &mut Rows, text: &mut [u8]) -> Option<()>
    ensures { RowsKept rows.old rows.new }
{
    let mut slots = [0u32; 300];
    let mut room = [0u8; 5300];
    let head = rows.read::<15>()?;
    let text = text.get_mut(..two_at(&head, 0) as usize)?;
    rows.fill(text)?;
    let lent = slots.len().min(two_at(&head, 2) as usize);
    let free = room.len().min(two_at(&head, 4) as usize);
    let change = Change {
        number: byte_at(&head, 6),
        value: eight_at(&head, 7),
    };
    rows.make_room(24_576);
    put_record(
        &mut rows.page,
        text,
        &mut slots[..lent],
        &mut room[..free],
        change,
    );
    Some(())
}
