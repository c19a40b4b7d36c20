// What the book says of one dword. An entry, a bit range or a value is the place of its tag byte in the book, and 0 is none.
// All are total: they take any book and any place.
ghost use Rattle.std.specs.Prelude.{◌≡◌, length};
ghost use Rattle.book.specs.Finders.{OwnName, Locates};
ghost use Rattle.packet.specs.Field.{or_else, name_in, range_in, value_in, named_in, asks};

use book::find;

// What an entry is asked for: its own name, or a bit range of that name.
// Kept an enum and no closure: the questions' contracts and theorems say by it which is asked (`field_by`).
#[derive(Clone, Copy)]
pub enum Ask {
    Named,
    Holds,
}

// The first of two places, unless it is none; then the second.
pub fn or_else(p: u32, q: u32) -> u32
    ensures { result ≡ or_else p q }
{
    if p == 0 { q } else { p }
}

// A place as it is lent, wide enough for an index. In the list of places that is lent, which C shares, 0 is none.
pub fn wide(place: u32) -> usize
    ensures { result ≡ place }
{
    place as usize
}

// The name of what stands at the place: the caller's own bytes of the book, and an empty part at its start for none.
pub fn name_in(book: &[u8], place: usize) -> &[u8]
    ensures { OwnName book.entry place (name_in book.now place) result }
{
    if place == 0 {
        return &book[..0];
    }
    find::name_of(book, place)
}

// The first bit range of that name in an entry.
pub fn range_in(book: &[u8], name: &[u8], entry: usize) -> Option<usize>
    ensures { Locates (length book.now) (range_in book.now name.now entry) result }
{
    if entry == 0 {
        return None;
    }
    find::range_of_name(book, entry, name)
}

// The value of a bit range in a dword.
pub fn value_in(book: &[u8], range: usize, dword: u32) -> u32
    ensures { result ≡ value_in book.now range dword }
{
    bits::range(dword, find::low_of(book, range), find::high_of(book, range))
}

// The value of a bit range in a dword, where the book names it.
pub fn named_in(book: &[u8], range: usize, dword: u32) -> Option<usize>
    ensures { Locates (length book.now) (named_in book.now range dword) result }
{
    if range == 0 {
        return None;
    }
    find::value_of_number(book, range, value_in(book, range, dword))
}

// Has the entry that name, or a bit range of it? An empty name is no name.
pub fn is_asked(book: &[u8], ask: Ask, name: &[u8], entry: usize) -> bool
    ensures { result ≡ asks ask book.now name.now entry }
{
    match ask {
        Ask::Named => is_named(book, name, entry),
        Ask::Holds => range_in(book, name, entry).is_some(),
    }
}

fn is_named(book: &[u8], name: &[u8], entry: usize) -> bool
    ensures { result ≡ asks Ask.Named book.now name.now entry }
{
    !name.is_empty() && name_in(book, entry) == name
}
