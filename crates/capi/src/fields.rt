// What the book says of a field, by the place of its entry; and names. Any book and any place is taken; place 0 is none.
// C's interface: a kind is a number, and any is taken.
ghost use Rattle.std.specs.Prelude.{◌≡◌};
ghost use Rattle.packet.specs.Field.{name_in};
ghost use Rattle.field.specs.Source.{field_of};
ghost use Rattle.field.specs.Ranges.{range_count, nth_range, range_named, value_place, value_name};
ghost use Rattle.capi.specs.Told.{whole_field, field_with, range_with, range_by, NamePart, Copied};

use crate::told::{FieldTold, NameTold, RangeTold};
use field::{Field, Place, Range, Source};
use packet::field::name_in;
use print::put::put;

// The field of a dword at an offset, described by the entry at the place.
pub fn ck_field(kind: u8, book: &[u8], offset: u16, dword: u32, entry: usize) -> FieldTold
    ensures { result ≡ whole_field (field_of kind book.now offset dword entry) }
{
    field::field_of(kind, book, offset, dword, entry).into()
}

// How many bit ranges the entry has.
pub fn ck_range_count(book: &[u8], entry: usize) -> usize
    ensures { result ≡ range_count book.now (field_with entry 0) }
{
    field::count_ranges(book, field_with(entry, 0))
}

// The entry's bit range with `k` before it, and its value in a dword.
pub fn ck_range(book: &[u8], entry: usize, dword: u32, k: usize) -> RangeTold
    ensures { result ≡ range_by (nth_range book.now (field_with entry dword) k) }
{
    field::nth_range(book, field_with(entry, dword), k).into()
}

// The entry's first bit range of that name, likewise.
pub fn ck_range_named(book: &[u8], entry: usize, dword: u32, name: &[u8]) -> RangeTold
    ensures { result ≡ range_by (range_named book.now (field_with entry dword) name.now) }
{
    field::range_named(book, field_with(entry, dword), name).into()
}

// Ranges are asked of a field; its offset and table do not matter to them.
fn field_with(entry: usize, value: u32) -> Field
    ensures { result ≡ field_with entry value }
{
    Field {
        offset: 0,
        value,
        source: Source::Protocol(Place { at: entry }),
    }
}

// Where the name of the entry, bit range or value at the place stands in the book, for whoever need not copy it.
pub fn ck_name_at(book: &[u8], place: usize) -> NameTold
    ensures { NamePart book.now place result }
{
    field::name_at(book, place).into()
}

// The place of the value that a bit range gives to a number, 0 for none.
pub fn ck_value_at(book: &[u8], range: usize, number: u32) -> usize
    ensures { result ≡ value_place book.now range number }
{
    field::value_at(book, range, number)
}

// The name of the entry, bit range or value at the place into the first bytes of the buffer, if all of it fits. The answer is its length, 0 where
// there is none.
pub fn ck_name(book: &[u8], place: usize, out: &mut [u8]) -> usize
    ensures { Copied (name_in book.now place) out.old out.new result }
{
    copy_name(name_in(book, place), out)
}

// The name that a bit range gives to a number, likewise.
pub fn ck_value_name(book: &[u8], range: usize, number: u32, out: &mut [u8]) -> usize
    ensures { Copied (value_name book.now (range_with range number)) out.old out.new result }
{
    copy_name(field::value_name(book, range_with(range, number)), out)
}

// A name into the first bytes of the buffer, if all of it fits; its length.
pub(crate) fn copy_name(name: &[u8], out: &mut [u8]) -> usize
    ensures { Copied name.now out.old out.new result }
{
    put(out, 0, name);
    name.len()
}

// A value's name is asked of a range; its bits do not matter to it.
fn range_with(place: usize, value: u32) -> Range
    ensures { result ≡ range_with place value }
{
    Range {
        low: 0,
        high: 0,
        value,
        place: Place { at: place },
    }
}
