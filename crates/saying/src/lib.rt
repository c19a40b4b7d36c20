// Words through an outlet: names, numbers, events and hex digits, one behind the other.
//
//     say_name     a book's name as it is shown
//     say_number   a number in decimal
//     say_event    the name that an event prints
//     say_dword    eight hex digits
//     say_hex      hex digits, at least eight
#![tactic(auto)]

ghost use Rattle.std.specs.Prelude.{◌≡◌, ◌≤◌, length};
ghost use Rattle.channel.specs.Sink.{Kept};
ghost use Rattle.print.specs.Hex.{dword_text};
ghost use Rattle.listing_rows.specs.Rows.{word_and_number};
ghost use Rattle.escape.specs.Escape.{escaped};
ghost use Rattle.saying.specs.Telling.{Told, name_text, event_text};

use channel::sink::Outlet;
use entry::events::Event;
use escape::put_escaped;
use print::page::Page;

// How many bytes of a name are escaped at a time, and how many bytes that can be.
const PIECE: usize = 64;

const ROOM: usize = 256;

// A word and then a name, escaped; nothing for no name.
pub fn say_name(outlet: &mut Outlet, word: &[u8], name: &[u8])
    ensures { Told outlet.old (name_text word.now name.now) outlet.new }
{
    if name.is_empty() {
        return;
    }
    outlet.say(word);
    let mut rest = name;
    while !rest.is_empty() {
        let (piece, behind) = rest.split_at(rest.len().min(PIECE));
        say_piece(outlet, piece);
        rest = behind;
    }
}

// A piece of a name, escaped.
fn say_piece(outlet: &mut Outlet, piece: &[u8])
    requires { length piece.now ≤ 64 }
    ensures { Told outlet.old (escaped piece.now) outlet.new }
{
    let mut room = [0u8; ROOM];
    let mut page = Page::new(&mut room);
    put_escaped(&mut page, piece);
    outlet.say(page.text());
}

// A word and then a number.
pub fn say_number(outlet: &mut Outlet, word: &[u8], n: u64)
    ensures { Told outlet.old (word_and_number word.now n) outlet.new }
{
    let mut room = [0u8; 20];
    let mut page = Page::new(&mut room);
    page.put_decimal(n);
    outlet.say(word);
    outlet.say(page.text());
}

// A word and then the name that an event prints; nothing for no event.
pub fn say_event(outlet: &mut Outlet, word: &[u8], what: Option<Event>)
    ensures { Told outlet.old (event_text word.now what) outlet.new }
{
    if let Some(event) = what {
        outlet.say(word);
        outlet.say(event.name().as_bytes());
    }
}

// Eight hex digits.
pub fn say_dword(outlet: &mut Outlet, d: u32)
    ensures { Told outlet.old (dword_text d) outlet.new }
{
    let mut room = [0u8; 8];
    let mut page = Page::new(&mut room);
    page.put_dword(d);
    outlet.say(page.text());
}

// Hex digits, at least eight.
pub fn say_hex(outlet: &mut Outlet, n: u64)
    ensures { Kept outlet.old outlet.new }
{
    let mut room = [0u8; 16];
    let mut page = Page::new(&mut room);
    page.put_dword((n >> 32) as u32);
    page.put_dword((n & 0xffff_ffff) as u32);
    let digits = page.text();
    let zeros = digits.iter().take(8).take_while(|d| **d == b'0').count();
    outlet.say(&digits[zeros..]);
}
