// The table of requests. A slot is a plain struct of numbers as it stands.
// C's interface: the structs' numbers are its layout.
ghost use Rattle.std.specs.Prelude.{◌≡◌, length, replicate};
ghost use Rattle.slots.specs.Decide.{free_slot};
ghost use Rattle.refusal.specs.Told.{told, told_maybe};
ghost use Rattle.capi.specs.Requests.{step_by, count_by, place_by, Stepped, Counted, Placed};

use c_entry::Flat;
use pending::{clear, oldest, step, waiting};
use refusal::Refusal;
use slots::Slot;
use slots::decide::Report;

// Number 0, the report and, where it is taken or answered, the slot's place; or the number that refuses the table, and zeros.
#[repr(C)]
#[derive(Clone, Copy, Default)]
pub struct StepAnswer {
    pub number: u8,
    pub report: u8,
    pub place: usize,
}

// Number 0 and how many wait, or the number that refuses the table and 0.
#[repr(C)]
#[derive(Clone, Copy, Default)]
pub struct CountAnswer {
    pub number: u8,
    pub count: u32,
}

// Number 0 and, where there is such a slot, 1 and its place; or the number that refuses the table, and zeros.
#[repr(C)]
#[derive(Clone, Copy, Default)]
pub struct PlaceAnswer {
    pub number: u8,
    pub present: u8,
    pub place: usize,
}

// Makes an empty table.
pub fn ck_pending_clear(slots: &mut [Slot])
    ensures { slots.new ≡ replicate (length slots.old) free_slot }
{
    clear(slots);
}

// One entry over the table.
pub fn ck_pending_step(f: Flat, slots: &mut [Slot]) -> StepAnswer
    ensures { Stepped f slots.old result slots.new }
{
    step(f.entry(), slots).into()
}

// How many requests wait.
pub fn ck_pending_waiting(slots: &[Slot]) -> CountAnswer
    ensures { Counted slots.now result }
{
    waiting(slots).into()
}

// Where the k-th oldest of them lies.
pub fn ck_pending_oldest(slots: &[Slot], k: u32) -> PlaceAnswer
    ensures { Placed slots.now k result }
{
    oldest(slots, k).into()
}

impl From<Result<Report, Refusal>> for StepAnswer {
    ghost from_gives = { λ answer r. r ≡ step_by answer };

    #[tactic(auto, unfolding(crate::specs::Requests::step_by))]
    fn from(answer: Result<Report, Refusal>) -> StepAnswer {
        match answer {
            Ok(reported) => {
                let (report, place) = match reported {
                    Report::Dropped => (1, 0),
                    Report::Other => (2, 0),
                    Report::NoSeq => (3, 0),
                    Report::Taken(place) => (4, place),
                    Report::TurnedAway => (5, 0),
                    Report::Answered(place) => (6, place),
                    Report::Stray => (7, 0),
                };
                StepAnswer {
                    number: 0,
                    report,
                    place,
                }
            }
            Err(refusal) => StepAnswer {
                number: refusal.number(),
                ..StepAnswer::default()
            },
        }
    }
}

impl From<Result<u32, Refusal>> for CountAnswer {
    ghost from_gives = { λ answer r. r ≡ count_by (told answer) };

    #[tactic(auto, unfolding(crate::specs::Requests::count_by))]
    fn from(answer: Result<u32, Refusal>) -> CountAnswer {
        match answer {
            Ok(count) => CountAnswer { number: 0, count },
            Err(refusal) => CountAnswer {
                number: refusal.number(),
                ..CountAnswer::default()
            },
        }
    }
}

impl From<Result<Option<usize>, Refusal>> for PlaceAnswer {
    ghost from_gives = { λ answer r. r ≡ place_by (told_maybe answer) };

    #[tactic(auto, unfolding(crate::specs::Requests::place_by))]
    fn from(answer: Result<Option<usize>, Refusal>) -> PlaceAnswer {
        match answer {
            Ok(Some(place)) => PlaceAnswer {
                number: 0,
                present: 1,
                place,
            },
            Ok(None) => PlaceAnswer::default(),
            Err(refusal) => PlaceAnswer {
                number: refusal.number(),
                ..PlaceAnswer::default()
            },
        }
    }
}
