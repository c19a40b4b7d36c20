// Requests matched to their responses, over a lent table of 1 to 64 slots.
//
//     clear     makes an empty table
//     step      one entry: the table changes as document 02 says, and the entry is reported
//     waiting   how many requests wait
//     oldest    where the k-th oldest of them lies
#![tactic(auto)]

ghost use Rattle.std.specs.Prelude.{◌≡◌, length, set, replicate};
ghost use Rattle.refusal.specs.Told.{told, told_maybe};
ghost use Rattle.slots.specs.Decide.{free_slot};
ghost use Rattle.slots.specs.Look.{asked_of};
ghost use Rattle.pending.specs.Over.{look_all};
ghost use Rattle.pending.specs.Table.{CountTold, PlaceTold};
ghost use Rattle.pending.specs.Step.{Step, freed};

use entry::Entry;
use refusal::Refusal;
use slots::Slot;
use slots::ask::Ask;
use slots::decide::{Change, Report};
use slots::look::Seen;

// Every slot is made free.
pub fn clear(slots: &mut [Slot])
    ensures { slots.new ≡ replicate (length slots.old) free_slot }
{
    slots.fill(Slot::free());
}

// One entry.
pub fn step(e: Entry, slots: &mut [Slot]) -> Result<Report, Refusal>
    ensures { Step e slots.old result slots.new }
{
    let plan = look(slots, Ask::of(e)).decide()?;
    match plan.change {
        Change::Nothing => {}
        Change::Put(at, slot) => put(slots, at, slot),
        Change::Free(rank) => free(slots, rank),
    }
    Ok(plan.report)
}

// How many slots wait. No slot that waits has rank 0, so none is asked for.
pub fn waiting(slots: &[Slot]) -> Result<u32, Refusal>
    ensures { CountTold slots.now (told result) }
{
    look(slots, Ask::Rank(0)).count()
}

// Where the k-th oldest of those that wait lies, the oldest being the first.
pub fn oldest(slots: &[Slot], k: u32) -> Result<Option<usize>, Refusal>
    ensures { PlaceTold slots.now k (told_maybe result) }
{
    look(slots, Ask::Rank(k)).place()
}

// ---- over the slice, slot by slot
// One look at every slot: the first free one, the ranks, and the oldest that is asked for.
fn look(slots: &[Slot], ask: Ask) -> Seen
    ensures { result ≡ look_all slots.now 0 (asked_of ask (length slots.now)) }
{
    let mut seen = Seen::new(ask, slots.len());
    for (place, slot) in slots.iter().enumerate() {
        seen.look(*slot, place);
    }
    seen
}

// A slot goes to a place; nothing where there is no such place.
fn put(slots: &mut [Slot], at: usize, slot: Slot)
    ensures { slots.new ≡ set slots.old at slot }
{
    if at < slots.len() {
        slots[at] = slot;
    }
}

// The slot of a rank is free, and the rank of those that came later is one less; rank 0 frees none.
fn free(slots: &mut [Slot], rank: u32)
    ensures { slots.new ≡ freed rank slots.old }
{
    for slot in slots.iter_mut() {
        *slot = slot.lowered(rank);
    }
}
