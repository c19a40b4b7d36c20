// A table of 64 slots that a program keeps: what `pending` does over a lent table.
#![tactic(auto)]

ghost use Rattle.std.specs.Prelude.{◌≡◌, ◌==◌, get_or, position, replicate};
ghost use Rattle.slots.specs.Decide.{free_slot};
ghost use Rattle.pending.specs.Step.{Step};
ghost use Rattle.pending.specs.Table.{waiting};

use entry::Entry;
use refusal::Refusal;
use slots::Slot;
use slots::decide::Report;

#[derive(Clone, Copy)]
pub struct Table {
    pub slots: [Slot; 64],
}

impl Table {
    // No request waits: every slot is free.
    pub fn empty() -> Table
        ensures { result.slots ≡ replicate 64 free_slot }
    {
        Table {
            slots: [Slot::free(); 64],
        }
    }

    // One entry: the table changes as document 02 says, and the entry is reported.
    pub fn step(&mut self, e: Entry) -> Result<Report, Refusal>
        ensures { Step e self.old.slots result self.new.slots }
    {
        pending::step(e, &mut self.slots)
    }

    // How many requests wait.
    pub fn waiting(&self) -> usize
        ensures { result ≡ waiting self.now.slots }
    {
        self.slots.iter().filter(|s| s.rank != 0).count()
    }

    // The first place whose slot has a rank.
    pub fn place_of_rank(&self, k: u32) -> Option<usize>
        ensures { result ≡ position (λ s. s.rank == k) self.now.slots }
    {
        self.slots.iter().position(|s| s.rank == k)
    }

    // The slot at a place; a free one past the last.
    pub fn slot_at(&self, i: usize) -> Slot
        ensures { result ≡ get_or self.now.slots i free_slot }
    {
        if i < 64 { self.slots[i] } else { Slot::free() }
    }
}
