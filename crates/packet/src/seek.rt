// The first dword whose entry is as asked, and the dwords of one name.
ghost use Rattle.std.specs.Prelude.{◌≡◌, ◌+◌, length, get_or, drop};
ghost use Rattle.packet.specs.Field.{asks};
ghost use Rattle.packet.specs.Steps.{gathered};
ghost use Rattle.packet.specs.Packet.{first_from};

use crate::field::{Ask, is_asked, wide};
use book::Uuid;

// The first index from `start` on at which the entry is as asked.
pub fn first_asked(
    book: &[u8],
    ask: Ask,
    name: &[u8],
    places: &[u32],
    start: usize,
) -> Option<usize>
    ensures { result ≡ first_from (asks ask book.now name.now) start (drop start places.now) }
{
    for i in start..places.len() {
        if is_asked(book, ask, name, wide(places[i])) {
            return Some(i);
        }
    }
    None
}

// The values of the dwords of that name, if there are exactly four. A dword without a place, or a place without a dword, counts for nothing.
pub fn gather(book: &[u8], name: &[u8], dwords: &[u32], places: &[u32]) -> Option<Uuid>
    ensures { result ≡ gathered book.now name.now dwords.now places.now }
{
    let mut values = [0u32; 4];
    let mut n: usize = 0;
    for i in 0..dwords.len().min(places.len()) {
        if is_asked(book, Ask::Named, name, wide(places[i])) {
            if 3 < n {
                return None;
            }
            values[n] = dwords[i];
            n += 1;
        }
    }
    if n < 4 {
        return None;
    }
    Some(Uuid {
        first: values[0],
        second: values[1],
        third: values[2],
        fourth: values[3],
    })
}

// The dword at `i`, and 0 past the end.
pub fn dword_at(dwords: &[u32], i: usize) -> u32
    ensures { result ≡ get_or dwords.now i 0 }
{
    if i < dwords.len() { dwords[i] } else { 0 }
}
