// The table of requests.
ghost use Rattle.std.specs.Prelude.{◌≡◌, length, replicate};
ghost use Rattle.slots.specs.Decide.{free_slot};
ghost use Rattle.capi.specs.Requests.{Stepped, Counted, Placed};

use c_entry::Flat;
use capi::requests::{CountAnswer, PlaceAnswer, StepAnswer};
use slots::Slot;

#[unsafe(no_mangle)]
pub extern "C" fn ck_pending_clear(slots: &mut [Slot])
    ensures { slots.new ≡ replicate (length slots.old) free_slot }
{
    capi::requests::ck_pending_clear(slots);
}

#[unsafe(no_mangle)]
pub extern "C" fn ck_pending_step(f: Flat, slots: &mut [Slot]) -> StepAnswer
    ensures { Stepped f slots.old result slots.new }
{
    capi::requests::ck_pending_step(f, slots)
}

#[unsafe(no_mangle)]
pub extern "C" fn ck_pending_waiting(slots: &[Slot]) -> CountAnswer
    ensures { Counted slots.now result }
{
    capi::requests::ck_pending_waiting(slots)
}

#[unsafe(no_mangle)]
pub extern "C" fn ck_pending_oldest(slots: &[Slot], k: u32) -> PlaceAnswer
    ensures { Placed slots.now k result }
{
    capi::requests::ck_pending_oldest(slots, k)
}
