// A packet: its dwords described over a book.
//
//     parse            numbers 20 to 26; the place of each dword's entry; the UUID, and where the data view starts
//     parse_over       the same for whoever checked the book before: it takes any book, and does not check it again
//     parse_checked    the same over a book that is known to be checked, for the crates above
//     fill, steps      the entries of a table by their offsets; the three steps
//     seek, field      the first dword as asked, and the dwords of one name; what the book says of one dword
//
// A kind is a number here: `parse` of packet takes any and refuses by 21 or 22 what is none, so a `Kind` would ask more of callers.
#![tactic(auto)]

pub mod field;
mod fill;
pub mod numbers;
pub mod seek;
mod steps;

ghost use Rattle.std.specs.Prelude.{◌≡◌};
ghost use Rattle.book.specs.Reading.{accepted, check_of};
ghost use Rattle.packet.specs.Packet.{Parsed, Over};
ghost use Rattle.packet.specs.Inner.{Ready, Made};

use crate::numbers::{open, start_of};
use crate::steps::describe;
use book::Uuid;
use refusal::Refusal;

// The tables that a packet of some kind is described by. Kinds 8 and 9 have the header table, and no other.
#[derive(Clone, Copy, Debug, PartialEq, Eq, Hash)]
pub struct Tables {
    pub control: usize,
    pub header: Option<usize>,
}

// A packet: its kind, how many dwords it has, the UUID that they hold, and where its data view starts.
#[derive(Clone, Copy, Debug, PartialEq, Eq, Hash)]
pub struct Packet {
    pub kind: u8,
    pub dwords: usize,
    pub uuid: Option<Uuid>,
    pub start: Option<u16>,
}

// The packet of a kind over a book, the place of each dword's entry in the first places; or the one number that refuses it, with no place
// touched.
pub fn parse(kind: u8, book: &[u8], dwords: &[u32], places: &mut [u32]) -> Result<Packet, Refusal>
    ensures { Parsed kind book.now dwords.now places.old places.new result }
{
    book::check(book)?;
    parse_checked(kind, book, dwords, places)
}

// The same over a book that is known to be checked.
pub fn parse_checked(
    kind: u8,
    book: &[u8],
    dwords: &[u32],
    places: &mut [u32],
) -> Result<Packet, Refusal>
    requires { check_of book.now ≡ accepted }
    ensures { Parsed kind book.now dwords.now places.old places.new result }
{
    parse_over(kind, book, dwords, places)
}

// The same for whoever checked the book before. Any book is taken: one that did not pass is described as far as its fields can be read, and
// one that is too long to have passed is refused.
pub fn parse_over(
    kind: u8,
    book: &[u8],
    dwords: &[u32],
    places: &mut [u32],
) -> Result<Packet, Refusal>
    ensures { Over kind book.now dwords.now places.old places.new result }
{
    if 65_535 < book.len() {
        return Err(Refusal::BadBook);
    }
    let n = dwords.len();
    let tables = open(kind, book, n, places.len())?;
    Ok(make(kind, book, tables, dwords, &mut places[..n]))
}

// The packet by its tables, a place for each dword.
fn make(kind: u8, book: &[u8], tables: Tables, dwords: &[u32], places: &mut [u32]) -> Packet
    requires { Ready kind book.now tables dwords.now places.old }
    ensures { Made kind book.now tables dwords.now places.new result }
{
    let uuid = describe(book, tables, dwords, places);
    let start = start_of(kind, book, tables.control, places);
    Packet {
        kind,
        dwords: dwords.len(),
        uuid,
        start,
    }
}
