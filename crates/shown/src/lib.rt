// What `show` prints of one line or record over a book: of an entry its time, function, kind, route and event, each dword with what the book says of it, and where
// the data starts; of each other why it is none. Every word goes through an outlet.
//
//     show_unit      a unit's block
#![tactic(auto)]

mod dwords;
mod words;

ghost use Rattle.std.specs.Prelude.{◌≤◌, length};
ghost use Rattle.channel.specs.Sink.{Kept};
ghost use Rattle.units.specs.Feeding.{text_length};

use crate::dwords::show_packet;
use crate::words::{kind_words, say_refusal};
use channel::sink::Outlet;
use entry::Entry;
use saying::{say_event, say_hex, say_number};
use scan::Pieces;
use stream::read_unit;
use units::Unit;

// The block of the unit with that number. The book is taken as it is: who shows many units checks it once. Asked for: that the unit's bytes stand in
// the buffer, as `units` leaves them.
pub fn show_unit(
    outlet: &mut Outlet,
    book: &[u8],
    cut: Unit,
    unit: &[u8],
    pieces: Pieces,
    number: u64,
)
    requires { text_length cut ≤ length unit.now }
    ensures { Kept outlet.old outlet.new }
{
    let mut slots = [0u32; 256];
    let answer = read_unit(cut, pieces, unit, &mut slots);
    say_number(outlet, b"", number);
    match answer {
        Ok(Some(e)) => {
            show_head(outlet, unit, e);
            show_packet(outlet, book, e.kind, e.data(&slots));
        }
        Ok(None) => {}
        Err(refusal) => say_refusal(outlet, b" refused ", refusal),
    }
}

// Time, function, kind and route, and the event where there is one.
fn show_head(outlet: &mut Outlet, text: &[u8], e: Entry)
    ensures { Kept outlet.old outlet.new }
{
    say_number(outlet, b"  ", e.seconds);
    say_number(outlet, b" s ", e.microseconds);
    outlet.say(b" us  ");
    outlet.say(e.function(text));
    outlet.say(b"  ");
    outlet.say(kind_words(e.kind));
    outlet.say(b"  route ");
    say_hex(outlet, e.route);
    say_event(outlet, b"  event ", e.event());
    outlet.say(b"\n");
}
