// What is to be done with what a look at all slots found.
ghost use Rattle.std.specs.Prelude.{◌≡◌};
ghost use Rattle.slots.specs.Decide.{check_of, decide_of, free_in, request_of, response_of, still_of, sound_of, ones_of, count_of, place_of};

use crate::ask::Ask;
use crate::look::{Ranks, Seen};
use crate::{Four, Slot};
use refusal::Refusal;

// Each entry is one of these, unless the table is refused: `Taken` and `Answered` say at which place.
#[derive(Clone, Copy, Debug, PartialEq, Eq, Hash)]
pub enum Report {
    Dropped,
    Other,
    NoSeq,
    Taken(usize),
    TurnedAway,
    Answered(usize),
    Stray,
}

// What changes in a table: nothing, the slot at a place, or a rank is freed.
#[derive(Clone, Copy, Debug, PartialEq, Eq, Hash)]
pub enum Change {
    Nothing,
    Put(usize, Slot),
    Free(u32),
}

#[derive(Clone, Copy, Debug, PartialEq, Eq, Hash)]
pub struct Plan {
    pub change: Change,
    pub report: Report,
}

impl Plan {
    fn still(report: Report) -> Plan
        ensures { result ≡ still_of report }
    {
        Plan {
            change: Change::Nothing,
            report,
        }
    }
}

impl Seen {
    #[tactic(auto, unfolding(crate::specs::Decide::decide_of))]
    pub fn decide(self) -> Result<Plan, Refusal>
        ensures { result ≡ decide_of self }
    {
        self.check()?;
        Ok(match self.ask {
            Ask::Dropped => Plan::still(Report::Dropped),
            Ask::NoSeq => Plan::still(Report::NoSeq),
            Ask::Request(four) => self.request(four),
            Ask::Response(_) => self.response(),
            Ask::Other | Ask::Rank(_) => Plan::still(Report::Other),
        })
    }

    // How many slots wait.
    #[tactic(auto, unfolding(crate::specs::Decide::count_of))]
    pub fn count(self) -> Result<u32, Refusal>
        ensures { result ≡ count_of self }
    {
        self.check()?;
        Ok(self.ranks.count)
    }

    // Where the slot that was asked for lies.
    #[tactic(auto, unfolding(crate::specs::Decide::place_of))]
    pub fn place(self) -> Result<Option<usize>, Refusal>
        ensures { result ≡ place_of self }
    {
        self.check()?;
        match self.oldest {
            Some(oldest) => Ok(Some(oldest.place)),
            None => Ok(None),
        }
    }

    // What refuses the table.
    #[tactic(auto, unfolding(crate::specs::Decide::check_of))]
    fn check(self) -> Result<(), Refusal>
        ensures { result ≡ check_of self }
    {
        if self.size == 0 || 64 < self.size {
            return Err(Refusal::TableSize);
        }
        if !self.ranks.is_sound() {
            return Err(Refusal::BrokenTable);
        }
        Ok(())
    }

    // A slot is free, so there is room for one more rank.
    #[tactic(auto, unfolding(crate::specs::Decide::request_of))]
    fn request(self, four: Four) -> Plan
        ensures { result ≡ request_of self four }
    {
        match self.free_place() {
            Some(at) if self.ranks.count < 64 => Plan {
                change: Change::Put(
                    at,
                    Slot {
                        four,
                        rank: self.ranks.count + 1,
                    },
                ),
                report: Report::Taken(at),
            },
            _ => Plan::still(Report::TurnedAway),
        }
    }

    // The first free place, if a slot is free.
    fn free_place(self) -> Option<usize>
        ensures { result ≡ free_in self.free self.size }
    {
        (self.free < self.size).then_some(self.free)
    }

    #[tactic(auto, unfolding(crate::specs::Decide::response_of))]
    fn response(self) -> Plan
        ensures { result ≡ response_of self }
    {
        match self.oldest {
            Some(oldest) => Plan {
                change: Change::Free(oldest.rank),
                report: Report::Answered(oldest.place),
            },
            None => Plan::still(Report::Stray),
        }
    }
}

impl Ranks {
    // No slot breaks a rule, and the ranks that are marked are 1 to the number of those that wait.
    #[tactic(auto, unfolding(crate::specs::Decide::sound_of))]
    fn is_sound(self) -> bool
        ensures { result ≡ sound_of self }
    {
        self.well && self.mask == ones(self.count)
    }
}

// So many low bits.
#[tactic(auto, unfolding(crate::specs::Decide::ones_of))]
fn ones(count: u32) -> u64
    ensures { result ≡ ones_of count }
{
    if count == 0 {
        return 0;
    }
    if 63 < count {
        return u64::MAX;
    }
    u64::MAX >> (64 - count)
}
