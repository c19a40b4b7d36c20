// Many packets over one book, which is checked once.
//
//     parse_all    for each packet what `packet::parse` answers: its places where its dwords stand, and one number
//
// Kinds are numbers here, as packet's `parse` takes them; where a refusal is put in their place is C's array.
#![tactic(auto)]

ghost use Rattle.std.specs.Prelude.{◌≡◌};
ghost use Rattle.book.specs.Reading.{accepted, check_of};
ghost use Rattle.batch.specs.Batch.{start_code, Batch, Each, One};

use packet::parse_checked;

// Packet k has kind `kinds[k]` and the next `counts[k]` dwords, as far as they go; its places stand where its dwords do. `codes[k]` tells where
// its data view starts, 65,536 where it has none, and 65,536 and the number where it is refused. The answer is how many packets there were: as
// many as there are kinds, counts and codes.
pub fn parse_all(
    book: &[u8],
    kinds: &[u8],
    counts: &[u32],
    dwords: &[u32],
    places: &mut [u32],
    codes: &mut [u32],
) -> usize
    ensures { Batch book.now kinds.now counts.now dwords.now places.old places.new codes.old codes.new result }
{
    match book::check(book) {
        Ok(()) => parse_each(book, kinds, counts, dwords, places, codes),
        Err(_) => refuse_each(kinds.len(), counts.len(), codes),
    }
}

// The packets over a checked book, one after the other.
fn parse_each(
    book: &[u8],
    kinds: &[u8],
    counts: &[u32],
    dwords: &[u32],
    places: &mut [u32],
    codes: &mut [u32],
) -> usize
    requires { check_of book.now ≡ accepted }
    ensures { Batch book.now kinds.now counts.now dwords.now places.old places.new codes.old codes.new result }
{
    let n = kinds.len().min(counts.len()).min(codes.len());
    let mut from = 0;
    let mut at = 0;
    for k in 0..n {
        // As far as the dwords and the places go.
        let count = counts[k] as usize;
        let end = from + count.min(dwords.len() - from);
        let stop = at + count.min(places.len() - at);
        codes[k] = parse_one(kinds[k], book, &dwords[from..end], &mut places[at..stop]);
        from = end;
        at = stop;
    }
    n
}

// Every packet over a book that breaks its grammar is refused with 20.
fn refuse_each(kinds: usize, counts: usize, codes: &mut [u32]) -> usize
    ensures { Each kinds counts codes.old codes.new result }
{
    let n = kinds.min(counts).min(codes.len());
    codes[..n].fill(65_556);
    n
}

// One packet's places and its number.
fn parse_one(kind: u8, book: &[u8], dwords: &[u32], places: &mut [u32]) -> u32
    requires { check_of book.now ≡ accepted }
    ensures { One kind book.now dwords.now places.old places.new result }
{
    match parse_checked(kind, book, dwords, places) {
        Ok(packet) => start_code(packet.start),
        Err(e) => 65_536 + e.number() as u32,
    }
}

// Where a data view starts, and 65,536 for none.
fn start_code(start: Option<u16>) -> u32
    ensures { result ≡ start_code start }
{
    start.map_or(65_536, |n| n as u32)
}
