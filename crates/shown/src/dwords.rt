// What is shown of a packet: its dwords, their bit ranges, and where the data starts.
ghost use Rattle.channel.specs.Sink.{Kept};

use crate::words::{say_refusal, source_words};
use channel::sink::Outlet;
use field::{Field, Range, count_ranges, field_name, field_of, nth_range, range_name, value_name};
use packet::seek::dword_at;
use saying::{say_dword, say_name, say_number};

pub fn show_packet(outlet: &mut Outlet, book: &[u8], kind: u8, dwords: &[u32])
    ensures { Kept outlet.old outlet.new }
{
    let mut places = [0u32; 256];
    match packet::parse_over(kind, book, dwords, &mut places) {
        Ok(packet) => {
            let start = packet.start.map(usize::from);
            show_dwords(outlet, book, kind, dwords, &places, start);
        }
        Err(refusal) => say_refusal(outlet, b"  no packet, ", refusal),
    }
}

// Each dword, and behind the last that is described where the data view starts. A view may be there and be empty.
fn show_dwords(
    outlet: &mut Outlet,
    book: &[u8],
    kind: u8,
    dwords: &[u32],
    places: &[u32],
    start: Option<usize>,
)
    ensures { Kept outlet.old outlet.new }
{
    for (i, dword) in dwords.iter().enumerate() {
        if start == Some(i) {
            outlet.say(b"  data\n");
        }
        let entry = dword_at(places, i) as usize;
        let offset = (i % 65_536) as u16;
        show_field(outlet, book, field_of(kind, book, offset, *dword, entry));
    }
    if start == Some(dwords.len()) {
        outlet.say(b"  data, empty\n");
    }
}

fn show_field(outlet: &mut Outlet, book: &[u8], field: Field)
    ensures { Kept outlet.old outlet.new }
{
    say_number(outlet, b"  ", field.offset as u64);
    outlet.say(b"  ");
    say_dword(outlet, field.value);
    say_name(outlet, b"  ", field_name(book, field));
    outlet.say(source_words(field.source));
    outlet.say(b"\n");
    for k in 0..count_ranges(book, field) {
        if let Some(range) = nth_range(book, field, k) {
            show_range(outlet, book, range);
        }
    }
}

// Its bits, name and value, and the value's name.
fn show_range(outlet: &mut Outlet, book: &[u8], range: Range)
    ensures { Kept outlet.old outlet.new }
{
    say_number(outlet, b"     ", range.low as u64);
    say_number(outlet, b"-", range.high as u64);
    say_name(outlet, b"  ", range_name(book, range));
    say_number(outlet, b" ", range.value as u64);
    say_name(outlet, b" ", value_name(book, range));
    outlet.say(b"\n");
}
