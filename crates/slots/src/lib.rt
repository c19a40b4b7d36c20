// A table of waiting requests, slot by slot: what an entry asks of it, what one look at all slots finds, and what follows. No function here
// holds a slice; `pending` goes over the slots.
//
//     ask      what an entry asks of the table
//     look     what one more slot adds to what was found
//     decide   what is to be done with what was found
#![tactic(auto)]

pub mod ask;
pub mod decide;
pub mod look;

ghost use Rattle.std.specs.Prelude.{◌≡◌};
ghost use Rattle.slots.specs.Look.{broken};
ghost use Rattle.slots.specs.Decide.{free_slot, lowered_of};

// What a request and its response share, the four: the route without its top bit, the domain, `seq`, and 0 for a read or 1 for a write.
// `write` is no `bool`: C lends the slots, with any byte there, and one above 1 refuses the table (`Sound`).
#[repr(C)]
#[derive(Clone, Copy, Debug, PartialEq, Eq, Hash)]
pub struct Four {
    pub route: u64,
    pub domain: u32,
    pub seq: u8,
    pub write: u8,
}

// A slot of rank 0 is free, whatever its four; of those that wait 1 is the oldest. The rank is no `Option`: C lends the slots in this layout.
#[repr(C)]
#[derive(Clone, Copy, Debug, PartialEq, Eq, Hash)]
pub struct Slot {
    pub four: Four,
    pub rank: u32,
}

impl Slot {
    // A slot of an empty table.
    pub fn free() -> Slot
        ensures { result ≡ free_slot }
    {
        Slot {
            four: Four {
                route: 0,
                domain: 0,
                seq: 0,
                write: 0,
            },
            rank: 0,
        }
    }

    // The slot once a rank is freed: it is free where it had that rank, and one nearer to the oldest where it came later. Rank 0 frees nothing.
    #[tactic(auto, unfolding(crate::specs::Decide::lower_of))]
    pub fn lowered(self, freed: u32) -> Slot
        ensures { result ≡ lowered_of freed self }
    {
        let rank = if freed == 0 || self.rank < freed {
            self.rank
        } else if self.rank == freed {
            0
        } else {
            self.rank - 1
        };
        Slot { rank, ..self }
    }

    // A slot that waits breaks a rule if its rank is past 64, its route has a top bit, or it neither reads nor writes.
    #[tactic(auto, unfolding(crate::specs::Look::broken))]
    fn is_broken(self) -> bool
        ensures { result ≡ broken self.four self.rank }
    {
        64 < self.rank || 0x7fff_ffff_ffff_ffff < self.four.route || 1 < self.four.write
    }
}
