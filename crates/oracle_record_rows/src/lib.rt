// The answer to a record as one row of text: every field of its entry and what writing the entry again gives, or the number that refuses the
// record. A row that fits the page is whole; of one that does not, the parts that do not fit are left out.
//
//     put_record    the row of a record
//     set           one number of an entry is another
#![tactic(auto, using(oracle_line_rows::proofs::Lent::buffer_size))]

ghost use Rattle.oracle_line_rows.specs.Lent.{OverSame};

pub mod set;

use crate::set::Change;
use oracle_line_rows::fields::{put_bytes, put_refused};
use oracle_line_rows::put_row;
use print::page::Page;
use record::read;
use writer::write;

// The row of a record, read into the lent slots, and its entry, with one number set, written again into the lent room.
pub fn put_record(page: &mut Page, text: &[u8], slots: &mut [u32], room: &mut [u8], change: Change)
    ensures { OverSame page.old page.new }
{
    match read(text, slots) {
        Ok(e) => {
            put_row(page, text, slots, e);
            page.put(b" written=");
            match write(text, change.set(e), slots, room) {
                Ok(n) => put_written(page, text, room, n),
                Err(refusal) => put_refused(page, b"refused", refusal),
            }
        }
        Err(refusal) => put_refused(page, b"refused ", refusal),
    }
    page.put(b"\n");
}

// What was written: `same` for the record's own bytes, or the bytes.
fn put_written(page: &mut Page, text: &[u8], room: &[u8], n: usize)
    ensures { OverSame page.old page.new }
{
    match room.get(..n) {
        Some(made) if made == text => page.put(b"same"),
        Some(made) => put_bytes(page, b"", made),
        None => page.put(b"more than the room"),
    }
}
