// A field of a packet: one dword, its offset, and what the book says of it.
//
//     field_of, entry_of      the field answer of an entry by its place, and that place
//     field_name              the name of a field
//     count_ranges            how many bit ranges a field has
//     nth_range, range_named  a bit range, by how many stand before it and by its name
//     range_name, value_name  the names of a bit range and of its value
//     name_at, value_at       where in the book a name stands, and a value of a bit range
//
// Every call takes any book and any place. A name is the caller's own bytes of the lent book, and an empty part at its start for none.
//
// A kind is a number here, as packet's `parse` takes it.
#![tactic(auto)]

mod table;

ghost use Rattle.std.specs.Prelude.{◌≡◌, ◌<◌};
ghost use Rattle.text.specs.Told.{is, maybe};
ghost use Rattle.book.specs.Finders.{OwnName};
ghost use Rattle.field.specs.Source.{source_of, entry_of, field_of};
ghost use Rattle.field.specs.Names.{Names};
ghost use Rattle.field.specs.Ranges.{field_name, range_count, range_at, nth_range, range_named, range_name, value_place, value_name};

use crate::table::{is_in_control, is_in_header};
use book::find;
use packet::field::{name_in, range_in, value_in};

// Where an entry stands in the book: the place of its tag byte.
#[derive(Clone, Copy, Debug, PartialEq, Eq, Hash)]
pub struct Place {
    pub at: usize,
}

// A part of the book: where it starts, and how many bytes it has.
#[derive(Clone, Copy, Debug, PartialEq, Eq, Hash)]
pub struct Span {
    pub at: usize,
    pub len: usize,
}

// The table that a description comes from, with the place of the entry; or there is no description.
#[derive(Clone, Copy, Debug, PartialEq, Eq, Hash)]
pub enum Source {
    Control(Place),
    Header(Place),
    Protocol(Place),
    Bare,
}

#[derive(Clone, Copy, Debug, PartialEq, Eq, Hash)]
pub struct Field {
    pub offset: u16,
    pub value: u32,
    pub source: Source,
}

// A bit range of a field: its bits, their value in the field's dword, and the place of the range in the book.
#[derive(Clone, Copy, Debug, PartialEq, Eq, Hash)]
pub struct Range {
    pub low: u8,
    pub high: u8,
    pub value: u32,
    pub place: Place,
}

// The field of a dword at an offset, whose entry has that place, 0 for none.
pub fn field_of(kind: u8, book: &[u8], offset: u16, dword: u32, entry: usize) -> Field
    ensures { result ≡ field_of kind book.now offset dword entry }
{
    Field {
        offset,
        value: dword,
        source: source_of(kind, book, entry),
    }
}

// The table that an entry stands in: the control table of the kind, the header table, else a protocol's.
fn source_of(kind: u8, book: &[u8], entry: usize) -> Source
    ensures { result ≡ source_of kind book.now entry }
{
    if entry == 0 {
        return Source::Bare;
    }
    if is_in_control(kind, book, entry) {
        return Source::Control(Place { at: entry });
    }
    if is_in_header(book, entry) {
        return Source::Header(Place { at: entry });
    }
    Source::Protocol(Place { at: entry })
}

// The place of a field's entry. Kept a number with 0 for none: the theorems of fields (`entry_of`, `inside`) read it so, as the lent places have it.
pub fn entry_of(field: Field) -> usize
    ensures { result ≡ entry_of field }
{
    match field.source {
        Source::Control(place) | Source::Header(place) | Source::Protocol(place) => place.at,
        Source::Bare => 0,
    }
}

// The name of a field.
pub fn field_name(book: &[u8], field: Field) -> &[u8]
    ensures { OwnName book.entry (entry_of field) (field_name book.now field) result }
{
    name_in(book, entry_of(field))
}

// How many bit ranges a field has.
pub fn count_ranges(book: &[u8], field: Field) -> usize
    ensures { result ≡ range_count book.now field }
{
    let entry = entry_of(field);
    if entry == 0 {
        return 0;
    }
    find::count_entries(book, entry)
}

// The bit range with `k` before it.
pub fn nth_range(book: &[u8], field: Field, k: usize) -> Option<Range>
    ensures { maybe result ≡ nth_range book.now field k }
{
    let entry = entry_of(field);
    if entry == 0 {
        return None;
    }
    let place = find::nth_range(book, entry, k)?;
    Some(range_at(book, place, field.value))
}

// The first bit range of a name.
pub fn range_named(book: &[u8], field: Field, name: &[u8]) -> Option<Range>
    ensures { maybe result ≡ range_named book.now field name.now }
{
    let place = range_in(book, name, entry_of(field))?;
    Some(range_at(book, place, field.value))
}

// The bit range at a place, with its value in a dword.
fn range_at(book: &[u8], at: usize, dword: u32) -> Range
    requires { 0 < at }
    ensures { is result ≡ range_at book.now at dword }
{
    Range {
        low: find::low_of(book, at),
        high: find::high_of(book, at),
        value: value_in(book, at, dword),
        place: Place { at },
    }
}

// The name of a bit range.
pub fn range_name(book: &[u8], range: Range) -> &[u8]
    ensures { OwnName book.entry range.place.at (range_name book.now range) result }
{
    name_in(book, range.place.at)
}

// The name of a bit range's value.
pub fn value_name(book: &[u8], range: Range) -> &[u8]
    ensures { OwnName book.entry (value_place book.now range.place.at range.value) (value_name book.now range) result }
{
    name_in(book, value_at(book, range.place.at, range.value))
}

// The place of a number among the values of a bit range; 0 for none, as C is told.
pub fn value_at(book: &[u8], range: usize, number: u32) -> usize
    ensures { result ≡ value_place book.now range number }
{
    if range == 0 {
        return 0;
    }
    find::value_of_number(book, range, number).unwrap_or(0)
}

// Where the name of the entry, bit range or value at a place stands in the book; at 0 with no byte where there is none.
pub fn name_at(book: &[u8], place: usize) -> Span
    ensures { Names book.now place result }
{
    let len = name_in(book, place).len();
    if len == 0 {
        return Span { at: 0, len: 0 };
    }
    if tlv::byte_at(book, place) == 7 {
        return Span { at: place + 7, len };
    }
    Span { at: place + 8, len }
}
