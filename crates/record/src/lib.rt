// The record of an entry, read: byte A1, a two-byte length of what follows, then fields with ascending tags.
//
//     read      an entry from its record, its dwords into lent slots
//     rule      what the body of each tag must be
//     judge     numbers 30 to 34 of document 01
//     find      a field by its tag, and its number
//     gather    the entry from the fields of a good record
#![tactic(auto)]

pub mod find;
pub mod gather;
pub mod judge;
pub mod rule;

ghost use Rattle.std.specs.Prelude.{◌≡◌, ◌≤◌, ◌+◌, ◌*◌, length};
ghost use Rattle.record.specs.Reading.{Reading, dwords_at, over};

use crate::find::place_of;
use crate::gather::entry_of;
use crate::judge::judge;
use entry::Entry;
use refusal::Refusal;
use tlv::four_at;

// The entry of a record. Its task and function are places of the record; its dwords go to the first slots, and no others change.
// Refusals: 30; field by field 31, 32, 34; then 33; then 35. They leave the slots as found.
pub fn read(text: &[u8], slots: &mut [u32]) -> Result<Entry, Refusal>
    ensures { Reading text.now slots.old result slots.new }
{
    judge(text)?;
    let data = place_of(text, 0x13);
    let n = data.len / 4;
    if slots.len() < n {
        return Err(Refusal::FewRecordSlots);
    }
    copy_dwords(text, data.from, n, slots);
    Ok(entry_of(text))
}

// The n dwords from a place on, into the first n slots.
fn copy_dwords(text: &[u8], from: usize, n: usize, slots: &mut [u32])
    requires { (n ≤ length slots.old) × (from + 4 * n ≤ length text.now) }
    ensures { slots.new ≡ over (dwords_at text.now from n) slots.old }
{
    for i in 0..n {
        slots[i] = four_at(text, from + 4 * i);
    }
}
