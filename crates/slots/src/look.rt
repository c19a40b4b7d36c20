// What one look at all slots finds, slot after slot: the first free one, the ranks that are carried, and the oldest slot that is asked for.
ghost use Rattle.std.specs.Prelude.{◌≡◌};
ghost use Rattle.slots.specs.Look.{asked_of, look_of, ranked_of, bit_of, before};

use crate::Slot;
use crate::ask::Ask;

// How many slots wait, a bit for each of the ranks 1 to 64 that one of them has, and whether none breaks a rule by itself: three
// facts, none in another's place.
#[derive(Clone, Copy)]
pub struct Ranks {
    pub count: u32,
    pub mask: u64,
    pub well: bool,
}

// The place and the rank of the oldest slot that is asked for.
#[derive(Clone, Copy)]
pub struct Oldest {
    pub place: usize,
    pub rank: u32,
}

// What is asked, of how many slots; the first free place, which is the size where none is free; and the oldest slot that is asked for. The free
// place is no `Option`: that took twelve instructions for each free slot where this takes nine.
#[derive(Clone, Copy)]
pub struct Seen {
    pub ask: Ask,
    pub size: usize,
    pub free: usize,
    pub ranks: Ranks,
    pub oldest: Option<Oldest>,
}

impl Seen {
    // Before the first slot of a table.
    pub fn new(ask: Ask, size: usize) -> Seen
        ensures { result ≡ asked_of ask size }
    {
        Seen {
            ask,
            size,
            free: size,
            ranks: Ranks {
                count: 0,
                mask: 0,
                well: true,
            },
            oldest: None,
        }
    }

    // The slot at a place is seen.
    #[tactic(auto, unfolding(crate::specs::Look::look_of, crate::specs::Look::first_of, crate::specs::Look::ranked_of, crate::specs::Look::older_of))]
    pub fn look(&mut self, slot: Slot, place: usize)
        ensures { self.new ≡ look_of self.old slot place }
    {
        if slot.rank == 0 {
            self.free = self.free.min(place);
            return;
        }
        self.ranks.mark(slot);
        if self.is_older(slot.rank) && self.ask.is_met(slot) {
            self.oldest = Some(Oldest {
                place,
                rank: slot.rank,
            });
        }
    }

    // Is this rank older than what was found?
    fn is_older(&self, rank: u32) -> bool
        ensures { result ≡ before rank self.now.oldest }
    {
        match self.oldest {
            Some(oldest) => rank < oldest.rank,
            None => true,
        }
    }
}

impl Ranks {
    // A slot that waits is counted and its rank marked. It breaks a rule by itself or if its rank is marked already; and no more than 64 are counted.
    #[tactic(auto, unfolding(crate::specs::Look::ranked_of))]
    fn mark(&mut self, slot: Slot)
        ensures { self.new ≡ ranked_of self.old slot }
    {
        if slot.rank == 0 {
            return;
        }
        if 63 < self.count {
            self.well = false;
            return;
        }
        self.count += 1;
        let bit = bit_of(slot.rank);
        if slot.is_broken() || self.mask & bit != 0 {
            self.well = false;
        } else {
            self.mask |= bit;
        }
    }
}

#[tactic(auto, unfolding(crate::specs::Look::bit_of))]
fn bit_of(rank: u32) -> u64
    ensures { result ≡ bit_of rank }
{
    if rank == 0 || 64 < rank {
        return 0;
    }
    1 << (rank - 1)
}
