// The record of an entry, written.
//
//     write     an entry's record into a lent buffer
//     check     number 37
//     item      the rows of the record, from the entry, and its size
//     put       bytes at a place of a buffer
//     small     the small writer, which holds the lent buffer
#![tactic(auto)]

pub mod check;
pub mod item;
pub mod put;
pub mod small;

ghost use Rattle.writer.specs.Writing.{Writing};

use crate::check::is_writable;
use crate::item::record_size;
use crate::small::put_record;
use entry::Entry;
use refusal::Refusal;

// The record of the entry, whose task and function lie in the text and whose dwords are the first of the dwords, into the first bytes of the
// buffer; no others change. Refusals: 37, then 36. They leave the buffer as found.
pub fn write(text: &[u8], e: Entry, dwords: &[u32], out: &mut [u8]) -> Result<usize, Refusal>
    ensures { Writing text.now e dwords.now out.old result out.new }
{
    if !is_writable(text, e, dwords) {
        return Err(Refusal::BadEntry);
    }
    let size = record_size(e);
    if out.len() < size {
        return Err(Refusal::ShortBuffer);
    }
    Ok(put_record(out, size - 3, text, e, dwords))
}
