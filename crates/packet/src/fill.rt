// Dwords without a description take the first entry of their offset: one walk over a table, whatever the number of dwords.
ghost use Rattle.std.specs.Prelude.{◌≡◌, ◌≤◌, ◌<◌, length};
ghost use Rattle.book.specs.Finders.{type_of};
ghost use Rattle.packet.specs.Steps.{entry_of, filled};
ghost use Rattle.packet.specs.Inner.{entry_from, picked, with_entry};

use book::find;
use tlv::Step;

// Which entries of a table count: any, or those of one type, where the empty type is no type.
// Kept an enum and no closure: `entry_of`, which the steps' definitions and theorems speak of, says by it in one word which is meant.
#[derive(Clone, Copy)]
pub enum Pick {
    Any,
    Typed,
}

// Each place that is 0 becomes that of the first entry of its offset, if the table has one.
pub fn fill(book: &[u8], table: usize, pick: Pick, name: &[u8], places: &mut [u32])
    requires { length book.now ≤ 65535 }
    ensures { places.new ≡ filled (entry_of pick name.now book.now table) places.old }
{
    let Step::Field { tag, from, to } = tlv::field_at(book, table) else {
        return;
    };
    let body = &book[..to];
    fill_from(body, find::inner(body, tag, from), pick, name, places);
}

// The entries from a place on, up to the end of the table.
fn fill_from(s: &[u8], start: usize, pick: Pick, name: &[u8], places: &mut [u32])
    requires { (length s.now ≤ 65535) × (0 < start) }
    ensures { places.new ≡ filled (entry_from pick name.now s.now start) places.old }
{
    let mut at = start;
    while let Step::Field { tag, from, to } = tlv::field_at(s, at) {
        put_entry(&s[..to], tag, at, from, pick, name, places);
        at = to;
    }
}

// The field that a text ends with: if it is an entry that counts, and the dword of its offset has none, that dword takes it.
#[tactic(auto, unfolding(crate::specs::Inner::with_entry, crate::specs::Inner::bare))]
fn put_entry(s: &[u8], tag: u8, at: usize, from: usize, pick: Pick, name: &[u8], places: &mut [u32])
    requires { at ≤ 65535 }
    ensures { places.new ≡ with_entry pick name.now s.now tag at from places.old }
{
    if tag != 3 {
        return;
    }
    let offset = tlv::two_at(s, from) as usize;
    if offset < places.len() && places[offset] == 0 && is_picked(s, at, pick, name) {
        places[offset] = at as u32;
    }
}

fn is_picked(s: &[u8], at: usize, pick: Pick, name: &[u8]) -> bool
    ensures { result ≡ picked pick (type_of s.now at) name.now }
{
    match pick {
        Pick::Any => true,
        Pick::Typed => find::type_of(s, at) == name,
    }
}
