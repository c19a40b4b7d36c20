// The symbols for C: each export is the call of the same name in `capi`, states its clauses again and hands its answer on. What each is for is
// said there and in include/chomkadieu.h.
// C's interface: one symbol a name. What symbols share is in `capi` and below it.
#![tactic(auto)]

pub mod asked;
pub mod described;
pub mod fields;
pub mod hexes;
pub mod packets;
pub mod requests;
pub mod streams;

ghost use Rattle.std.specs.Prelude.{◌≡◌, length};
ghost use Rattle.scan.specs.declared.Pieces.TheVariants as P;
ghost use Rattle.record.specs.Reading.{read_of, dwords_of};
ghost use Rattle.intake.specs.What.{what_of};
ghost use Rattle.book.specs.Reading.{check_of};
ghost use Rattle.text.specs.Told.{number_in};
ghost use Rattle.entry.specs.Entry.{adapter_of, unplug_of};
ghost use Rattle.c_entry.specs.Flat.{byte_of};
ghost use Rattle.capi.specs.Told.{as_number, flat_told};
ghost use Rattle.capi.specs.Calls.{Read, LineRead, EitherRead, Wrote, what_by, name_by};

use c_entry::Flat;
use capi::{EntryAnswer, EventName, WhatAnswer, WriteAnswer};

#[unsafe(no_mangle)]
pub extern "C" fn ck_parse(line: &[u8], slots: &mut [u32]) -> EntryAnswer
    ensures { LineRead P.Strict line.now slots.old slots.new result }
{
    capi::ck_parse(line, slots)
}

#[unsafe(no_mangle)]
pub extern "C" fn ck_parse_lenient(line: &[u8], slots: &mut [u32]) -> EntryAnswer
    ensures { LineRead P.Lenient line.now slots.old slots.new result }
{
    capi::ck_parse_lenient(line, slots)
}

#[unsafe(no_mangle)]
pub extern "C" fn ck_record_read(text: &[u8], slots: &mut [u32]) -> EntryAnswer
    ensures { Read (read_of text.now (length slots.old)) (dwords_of text.now) slots.old slots.new result }
{
    capi::ck_record_read(text, slots)
}

#[unsafe(no_mangle)]
pub extern "C" fn ck_read(text: &[u8], slots: &mut [u32]) -> EntryAnswer
    ensures { EitherRead P.Strict text.now slots.old slots.new result }
{
    capi::ck_read(text, slots)
}

#[unsafe(no_mangle)]
pub extern "C" fn ck_read_lenient(text: &[u8], slots: &mut [u32]) -> EntryAnswer
    ensures { EitherRead P.Lenient text.now slots.old slots.new result }
{
    capi::ck_read_lenient(text, slots)
}

#[unsafe(no_mangle)]
pub extern "C" fn ck_what(text: &[u8]) -> WhatAnswer
    ensures { result ≡ what_by (what_of P.Strict text.now) }
{
    capi::ck_what(text)
}

#[unsafe(no_mangle)]
pub extern "C" fn ck_what_lenient(text: &[u8]) -> WhatAnswer
    ensures { result ≡ what_by (what_of P.Lenient text.now) }
{
    capi::ck_what_lenient(text)
}

#[unsafe(no_mangle)]
pub extern "C" fn ck_record_write(
    text: &[u8],
    entry: Flat,
    dwords: &[u32],
    out: &mut [u8],
) -> WriteAnswer
    ensures { Wrote text.now entry dwords.now out.old out.new result }
{
    capi::ck_record_write(text, entry, dwords, out)
}

#[unsafe(no_mangle)]
pub extern "C" fn ck_book_check(book: &[u8]) -> u8
    ensures { result ≡ number_in (check_of book.now) }
{
    capi::ck_book_check(book)
}

#[unsafe(no_mangle)]
pub extern "C" fn ck_event_name(code: u8) -> EventName
    ensures { result ≡ name_by code }
{
    capi::ck_event_name(code)
}

#[unsafe(no_mangle)]
pub extern "C" fn ck_adapter_num(entry: Flat) -> u32
    ensures { result ≡ flat_told (adapter_of (byte_of entry.code) (byte_of entry.port)) }
{
    capi::ck_adapter_num(entry)
}

#[unsafe(no_mangle)]
pub extern "C" fn ck_unplug(entry: Flat) -> u32
    ensures { result ≡ flat_told (as_number (unplug_of (byte_of entry.unplug))) }
{
    capi::ck_unplug(entry)
}
