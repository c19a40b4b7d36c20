// The rows through a sink.
ghost use Rattle.unanswered.specs.Saying.{LineSaid};

use channel::sink::Outlet;
use desk::Desk;
use print::page::Page;
use scan::Pieces;
use unanswered_rows::{put_row, put_totals, put_waits};

// A line's row.
pub fn say_line(sink: &mut Outlet, desk: &mut Desk, line: &[u8], pieces: Pieces)
    ensures { LineSaid pieces line.now desk.old sink.old desk.new sink.new }
{
    let row = desk.step_line(line, pieces);
    let mut room = [0u8; 256];
    let mut page = Page::new(&mut room);
    put_row(&mut page, desk.counts.lines, row);
    sink.say(page.text());
}

// What waits, the oldest first, and the totals.
pub fn say_end(sink: &mut Outlet, desk: &Desk) {
    for rank in 1..65 {
        let Some(place) = desk.table.place_of_rank(rank) else {
            break;
        };
        say_waits(sink, desk, place);
    }
    let mut room = [0u8; 256];
    let mut page = Page::new(&mut room);
    put_totals(&mut page, desk.counts, desk.table.waiting() as u64);
    sink.say(page.text());
}

fn say_waits(sink: &mut Outlet, desk: &Desk, place: usize) {
    let slot = desk.table.slot_at(place);
    let note = desk.note_at(place);
    let mut room = [0u8; 256];
    let mut page = Page::new(&mut room);
    put_waits(&mut page, note, slot.four);
    sink.say(page.text());
}
