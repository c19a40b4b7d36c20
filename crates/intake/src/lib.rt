// The door: a text that starts with byte A1 is taken as a record, all others as lines.
//
//     read      the entry of a text
//     packet    the packet of a text, over a book
//     what_is   record or line
#![tactic(auto)]

ghost use Rattle.std.specs.Prelude.{◌≡◌, ◌≤◌, length};
ghost use Rattle.refusal.specs.Told.{told};
ghost use Rattle.intake.specs.Intake.{starts_a1, Taken};
ghost use Rattle.intake.specs.Packets.{PacketTaken, Handed};
ghost use Rattle.intake.specs.What.{grammar_of, what_of};

use entry::Entry;
use packet::Packet;
use refusal::Refusal;
use scan::dwords::copy;
use scan::{Pieces, parse};
use text::place::byte_at;

// The grammar that a text belongs to: that of records, or that of lines by the choice.
#[derive(Clone, Copy, Debug, PartialEq, Eq, Hash)]
pub enum What {
    Record,
    Line,
}

// The entry of a text, its dwords in the first slots; or the one number that refuses it, with no slot touched. A record is read whatever the choice.
pub fn read(text: &[u8], pieces: Pieces, slots: &mut [u32]) -> Result<Entry, Refusal>
    ensures { Taken pieces text.now slots.old slots.new result }
{
    if starts_a1(text) {
        return record::read(text, slots);
    }
    parse(text, pieces, slots)
}

// Byte A1 is first, as it is in every record and in no line.
#[tactic(auto, unfolding(crate::specs::Intake::starts_a1))]
pub fn starts_a1(text: &[u8]) -> bool
    ensures { result ≡ starts_a1 text.now }
{
    byte_at(text, 0) == 0xA1
}

// The packet of a text over a book, its dwords in the first slots and the place of each one's entry in the first places; or the one number that
// refuses the text or the packet, with no slot and no place touched. The dwords wait in an array until the packet is judged, of 256 elements, since no
// text that is accepted has more.
pub fn packet(
    text: &[u8],
    pieces: Pieces,
    book: &[u8],
    slots: &mut [u32],
    places: &mut [u32],
) -> Result<Packet, Refusal>
    ensures { PacketTaken pieces text.now book.now slots.old slots.new places.old places.new result }
{
    let mut dwords = [0u32; 256];
    let room = slots.len().min(256);
    let e = read(text, pieces, &mut dwords[..room])?;
    hand_over(e.kind, book, &dwords[..e.dwords], slots, places)
}

// The packet of a kind and dwords, the dwords into the first slots; a refusal touches nothing.
fn hand_over(
    kind: u8,
    book: &[u8],
    dwords: &[u32],
    slots: &mut [u32],
    places: &mut [u32],
) -> Result<Packet, Refusal>
    requires { length dwords.now ≤ length slots.old }
    ensures { Handed kind book.now dwords.now slots.old slots.new places.old places.new result }
{
    let p = packet::parse(kind, book, dwords, places)?;
    copy(dwords, slots);
    Ok(p)
}

// What a text is, or the number that refuses it where it belongs to neither grammar. It is read into slots of the call's own, 256 of them, so no text
// is refused for want of slots, and nothing is lent for writing.
pub fn what_is(text: &[u8], pieces: Pieces) -> Result<What, Refusal>
    ensures { told result ≡ what_of pieces text.now }
{
    let mut slots = [0u32; 256];
    read(text, pieces, &mut slots)?;
    Ok(grammar_of(text))
}

// The grammar of a text that was accepted.
#[tactic(auto, unfolding(crate::specs::What::grammar_of))]
fn grammar_of(text: &[u8]) -> What
    ensures { result ≡ grammar_of text.now }
{
    if starts_a1(text) {
        return What::Record;
    }
    What::Line
}
