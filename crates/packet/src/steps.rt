// The steps that describe a packet's dwords: control table, header table, UUID, protocol table.
ghost use Rattle.std.specs.Prelude.{◌≡◌, ◌≤◌, ◌<◌, length, IfSome, Some};
ghost use Rattle.book.specs.Finders.{place_of, Locates};
ghost use Rattle.packet.specs.Steps.{control_places, places_by, protocol_places, type_in};
ghost use Rattle.packet.specs.Inner.{Spread, Latched, Described};

use crate::Tables;
use crate::field::{name_in, named_in, or_else, range_in};
use crate::fill::{Pick, fill};
use crate::seek::gather;
use book::{Uuid, find};

// The place of each dword's entry, 0 for none, and the UUID that the fields named so make.
pub fn describe(book: &[u8], tables: Tables, dwords: &[u32], places: &mut [u32]) -> Option<Uuid>
    requires { (length book.now ≤ 65535) × (length dwords.now ≤ 256) × (length places.old ≡ length dwords.now) }
    ensures { Described tables.header book.now dwords.now (control_places book.now tables.control dwords.now) places.new result }
{
    places.fill(0);
    fill(book, tables.control, Pick::Any, b"", places);
    let header = tables.header?;
    describe_xdomain(book, header, dwords, places)
}

// Kinds 8 and 9 go on with the header table and the table of their UUID.
fn describe_xdomain(book: &[u8], header: usize, dwords: &[u32], places: &mut [u32]) -> Option<Uuid>
    requires { (length book.now ≤ 65535) × (length dwords.now ≤ 256) × (length places.old ≡ length dwords.now) }
    ensures { Described (Some header) book.now dwords.now places.old places.new result }
{
    fill(book, header, Pick::Typed, b"", places);
    let uuid = gather(book, b"UUID", dwords, places);
    describe_protocol(book, uuid, dwords, places);
    uuid
}

// In the table of the UUID, if there is one and the book has it.
fn describe_protocol(book: &[u8], uuid: Option<Uuid>, dwords: &[u32], places: &mut [u32])
    requires { (length book.now ≤ 65535) × (length dwords.now ≤ 256) × (length places.old ≡ length dwords.now) }
    ensures { places.new ≡ places_by book.now uuid dwords.now places.old }
{
    let Some(u) = uuid else {
        return;
    };
    let Some(table) = find::uuid_table(book, u) else {
        return;
    };
    latch_through(book, table, dwords, places);
}

// The untyped entries are laid out once by their offsets; those of the latched type will be once it is known.
fn latch_through(book: &[u8], table: usize, dwords: &[u32], places: &mut [u32])
    requires { (length book.now ≤ 65535) × (length dwords.now ≤ 256) × (length places.old ≡ length dwords.now) }
    ensures { places.new ≡ protocol_places book.now table dwords.now places.old }
{
    let mut plain = [0u32; 256];
    let mut typed = [0u32; 256];
    let n = dwords.len();
    fill(book, table, Pick::Typed, b"", &mut plain[..n]);
    latch_over(book, table, dwords, places, &plain[..n], &mut typed[..n]);
}

// For each offset upward the fitting entry; the name of the first packet type that has one governs the offsets behind it.
fn latch_over(
    book: &[u8],
    table: usize,
    dwords: &[u32],
    places: &mut [u32],
    plain: &[u32],
    typed: &mut [u32],
)
    requires { Spread book.now table dwords.now places.old plain.now typed.old }
    ensures { places.new ≡ protocol_places book.now table dwords.now places.old }
{
    let mut latched = None;
    for i in 0..dwords.len() {
        let found = or_else(typed[i], plain[i]);
        let entry = or_else(places[i], found);
        places[i] = entry;
        latched = latch(book, table, latched, found, entry, dwords[i], typed);
    }
}

// What is latched behind a dword, and the entries of that type.
fn latch(
    book: &[u8],
    table: usize,
    latched: Option<usize>,
    found: u32,
    entry: u32,
    dword: u32,
    typed: &mut [u32],
) -> Option<usize>
    requires { (length book.now ≤ 65535) × IfSome latched (λ p. 0 < p) }
    ensures { Latched book.now table (place_of latched) found entry dword typed.old typed.new (place_of result) × IfSome result (λ p. 0 < p) }
{
    if latched.is_some() || found == 0 {
        return latched;
    }
    let named = type_in(book, entry as usize, dword)?;
    fill(book, table, Pick::Typed, name_in(book, named), typed);
    Some(named)
}

// The value of the first `Packet Type` range of an entry, where the book names it.
fn type_in(book: &[u8], entry: usize, dword: u32) -> Option<usize>
    ensures { Locates (length book.now) (type_in book.now entry dword) result }
{
    let range = range_in(book, b"Packet Type", entry)?;
    named_in(book, range, dword)
}
