// What the book says of a field, by the place of its entry; and names.
// C's interface: one symbol a name, and a kind is a number. What symbols share is in `capi` and below it.
ghost use Rattle.std.specs.Prelude.{◌≡◌};
ghost use Rattle.packet.specs.Field.{name_in};
ghost use Rattle.field.specs.Source.{field_of};
ghost use Rattle.field.specs.Ranges.{range_count, nth_range, range_named, value_place, value_name};
ghost use Rattle.capi.specs.Told.{whole_field, field_with, range_with, range_by, NamePart, Copied};

use capi::told::{FieldTold, NameTold, RangeTold};

#[unsafe(no_mangle)]
pub extern "C" fn ck_field(
    kind: u8,
    book: &[u8],
    offset: u16,
    dword: u32,
    entry: usize,
) -> FieldTold
    ensures { result ≡ whole_field (field_of kind book.now offset dword entry) }
{
    capi::fields::ck_field(kind, book, offset, dword, entry)
}

#[unsafe(no_mangle)]
pub extern "C" fn ck_range_count(book: &[u8], entry: usize) -> usize
    ensures { result ≡ range_count book.now (field_with entry 0) }
{
    capi::fields::ck_range_count(book, entry)
}

#[unsafe(no_mangle)]
pub extern "C" fn ck_range(book: &[u8], entry: usize, dword: u32, k: usize) -> RangeTold
    ensures { result ≡ range_by (nth_range book.now (field_with entry dword) k) }
{
    capi::fields::ck_range(book, entry, dword, k)
}

#[unsafe(no_mangle)]
pub extern "C" fn ck_range_named(book: &[u8], entry: usize, dword: u32, name: &[u8]) -> RangeTold
    ensures { result ≡ range_by (range_named book.now (field_with entry dword) name.now) }
{
    capi::fields::ck_range_named(book, entry, dword, name)
}

#[unsafe(no_mangle)]
pub extern "C" fn ck_name_at(book: &[u8], place: usize) -> NameTold
    ensures { NamePart book.now place result }
{
    capi::fields::ck_name_at(book, place)
}

#[unsafe(no_mangle)]
pub extern "C" fn ck_value_at(book: &[u8], range: usize, number: u32) -> usize
    ensures { result ≡ value_place book.now range number }
{
    capi::fields::ck_value_at(book, range, number)
}

#[unsafe(no_mangle)]
pub extern "C" fn ck_name(book: &[u8], place: usize, out: &mut [u8]) -> usize
    ensures { Copied (name_in book.now place) out.old out.new result }
{
    capi::fields::ck_name(book, place, out)
}

#[unsafe(no_mangle)]
pub extern "C" fn ck_value_name(book: &[u8], range: usize, number: u32, out: &mut [u8]) -> usize
    ensures { Copied (value_name book.now (range_with range number)) out.old out.new result }
{
    capi::fields::ck_value_name(book, range, number, out)
}
