// The filters over slices: parts of the input in, what is put out in lent buffers, whatever the cuts.
//
//     take_some   as much of a part as the outputs have room for
//     finish      what the end of the input puts out
//     whole_in    how many rows or records stand whole in what was put out
#![tactic(auto)]

mod packing;
mod row;

ghost use Rattle.std.specs.Prelude.{◌≡◌, true, ◌+◌, ◌≤◌, ◌<◌, length};
ghost use Rattle.refusal.specs.Told.{told_maybe};
ghost use Rattle.units.specs.Kept.{is_kept};
ghost use Rattle.units.specs.Feeding.{text_length};
ghost use Rattle.units.specs.Counting.{Ended};
ghost use Rattle.filters.specs.Bounds.{Room, Within, Goes, Stops};
ghost use Rattle.filters.specs.Texts.{framing_of, put_framing, seen_by};
ghost use Rattle.filters.specs.Filter.{counted};
ghost use Rattle.filters.specs.Calls.{CutPut, LastPut, Took, Finished};

use crate::packing::pack_unit;
use crate::row::{put_row, read_line};
use entry::Entry;
use listing_rows::at::put_totals;
use refusal::Refusal;
use scan::Pieces;
use stream::read_unit;
use units::{Framing, State, Unit, feed_on, units_in};

// The listing reads lines leniently, always. What is packed, and what is listed of lines and records, is read by a choice.
// It is no set of closures: five functions go by it, and five closures in its place would travel together.
#[derive(Clone, Copy)]
pub enum Filter {
    Listing,
    Pack(Pieces),
    Unpack(Pieces),
}

// How many units there were, and how many of them were entries.
#[derive(Clone, Copy, Debug, PartialEq, Eq)]
pub struct Counts {
    pub units: u64,
    pub entries: u64,
}

// Where the part was left, what is kept of the open unit, where each output goes on, and the counts.
#[derive(Clone, Copy)]
pub struct Run {
    pub from: usize,
    pub state: State,
    pub at: usize,
    pub told: usize,
    pub counts: Counts,
}

impl Counts {
    pub fn start() -> Counts
        ensures { (result.units ≡ 0) × (result.entries ≡ 0) }
    {
        Counts {
            units: 0,
            entries: 0,
        }
    }

    // The counts with one unit more, if one ended, by its answer; no count leaves its type.
    #[tactic(auto, unfolding(crate::specs::Filter::counted, crate::specs::Filter::one_more, crate::specs::Texts::seen_by))]
    fn with(self, answer: Result<Option<Entry>, Refusal>) -> Counts
        ensures { result ≡ counted self (seen_by (told_maybe answer)) }
    {
        match answer {
            Ok(Some(_)) => Counts {
                units: self.units.saturating_add(1),
                entries: self.entries.saturating_add(1),
            },
            Err(_) => Counts {
                units: self.units.saturating_add(1),
                ..self
            },
            Ok(None) => self,
        }
    }
}

impl Filter {
    // What the input is made of.
    fn framing(self) -> Framing
        ensures { result ≡ framing_of self }
    {
        match self {
            Filter::Listing => Framing::Lines,
            Filter::Pack(_) | Filter::Unpack(_) => Framing::Both,
        }
    }
}

// How many rows, or records where those are put out, stand whole in what was put out.
pub fn whole_in(filter: Filter, put: &[u8]) -> usize
    ensures { Ended (put_framing filter) put.now result }
{
    match filter {
        Filter::Listing | Filter::Unpack(_) => units_in(Framing::Lines, put),
        Filter::Pack(_) => units_in(Framing::Both, put),
    }
}

// What a unit puts out that was cut off the input. Asked for: that its bytes stand in the unit buffer, as `units` leaves them, and room.
fn put_unit(
    filter: Filter,
    cut: Unit,
    unit: &[u8],
    out: &mut [u8],
    told: &mut [u8],
    run: Run,
) -> Run
    requires { (text_length cut ≤ length unit.now) × (Room (length out.old) (length told.old) run) }
    ensures { CutPut filter cut unit.now out.old told.old run out.new told.new result }
{
    match filter {
        Filter::Listing => put_row(read_line(cut, unit), out, run),
        Filter::Pack(pieces) => pack_unit(cut, pieces, unit, out, told, run),
        Filter::Unpack(pieces) => {
            let mut slots = [0u32; 256];
            put_row(read_unit(cut, pieces, unit, &mut slots), out, run)
        }
    }
}

// The part up to the end of its next unit, and what that unit puts out, if one ends there.
fn turn(
    filter: Filter,
    part: &[u8],
    unit: &mut [u8],
    out: &mut [u8],
    told: &mut [u8],
    run: Run,
) -> Run
    requires { (run.from < length part.now) × (is_kept (framing_of filter) unit.old run.state.held run.state.passed ≡ true) × (Room (length out.old) (length told.old) run) }
    ensures { (Took filter part.now unit.old out.old told.old run unit.new out.new told.new result) × (run.from < result.from) }
{
    let fed = feed_on(filter.framing(), run.state, part, run.from, unit);
    let next = Run {
        from: fed.at,
        state: fed.state,
        ..run
    };
    put_unit(filter, fed.unit, unit, out, told, next)
}

// What the units of a part put out, for as much of it as there is room for: until the part is used up, or an output has less room than a
// unit may take. Asked for: places within the buffers, and a unit that is kept as a stream keeps it; `moving` keeps them so.
pub fn take_some(
    filter: Filter,
    part: &[u8],
    unit: &mut [u8],
    out: &mut [u8],
    told: &mut [u8],
    run: Run,
) -> Run
    requires { (run.from ≤ length part.now) × (is_kept (framing_of filter) unit.old run.state.held run.state.passed ≡ true) × (run.at ≤ length out.old) × (run.told ≤ length told.old) }
    ensures took { Took filter part.now unit.old out.old told.old run unit.new out.new told.new result }
    ensures stops { Stops (length part.now) (length out.old) (length told.old) result }
    ensures within { (Within (length part.now) (length out.old) (length told.old) run result) × (Goes (length part.now) (length out.old) (length told.old) run result) }
{
    let mut at = run;
    while at.from < part.len() {
        if out.len() - at.at < 5400 {
            return at;
        }
        if told.len() - at.told < 400 {
            return at;
        }
        at = turn(filter, part, unit, out, told, at);
    }
    at
}

// What the end of the input puts out: that of the open unit, if there is one, and the totals. Asked for: a unit that is kept as a stream
// keeps it, and room, which `moving` makes.
pub fn finish(filter: Filter, unit: &[u8], out: &mut [u8], told: &mut [u8], run: Run) -> Run
    requires { (is_kept (framing_of filter) unit.now run.state.held run.state.passed ≡ true) × (Room (length out.old) (length told.old) run) }
    ensures { Finished filter unit.now out.old told.old run out.new told.new result }
{
    let cut = units::finish(filter.framing(), run.state, unit);
    let put = put_unit(filter, cut, unit, out, told, run);
    put_last(filter, out, told, put)
}

// The totals, where the filter puts them.
fn put_last(filter: Filter, out: &mut [u8], told: &mut [u8], run: Run) -> Run
    requires { (run.at + 64 ≤ length out.old) × (run.told + 64 ≤ length told.old) }
    ensures { LastPut filter out.old told.old run out.new told.new result }
{
    let Counts { units, entries } = run.counts;
    match filter {
        Filter::Listing | Filter::Unpack(_) => Run {
            at: put_totals(out, run.at, units, entries),
            ..run
        },
        Filter::Pack(_) => Run {
            told: put_totals(told, run.told, units, entries),
            ..run
        },
    }
}
