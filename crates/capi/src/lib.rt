// The calls for C and for languages that link as C does: numbers, slices and plain structs. Each takes any input and answers as the call that it
// stands for; include/chomkadieu.h says what for. Calls that read lines are strict, and have a lenient form beside them.
//
//     ck_parse, ck_record_read, ck_read        a line, a record, either of them: its entry
//     ck_what                                  a text: record, line or neither
//     ck_record_write                          an entry: its record
//     ck_book_check                            a book: accepted, or number 20
//     ck_event_name, ck_adapter_num, ck_unplug what an entry is asked
//     packets, asked, described                packets over a book, and what they are asked
//     fields                                   what the book says of a field; names
//     hexes                                    why a hex number was unreadable
//     requests                                 the table of requests
//     streams                                  a stream fed in parts
//     told                                     the answers as plain structs
//
// C's interface: strict and lenient are two names each, and each struct's numbers are C's layout.
#![tactic(auto)]

pub mod asked;
pub mod described;
pub mod fields;
pub mod hexes;
pub mod packets;
pub mod requests;
pub mod streams;
pub mod told;

ghost use Rattle.std.specs.Prelude.{◌≡◌, length};
ghost use Rattle.scan.specs.declared.Pieces.TheVariants as P;
ghost use Rattle.refusal.specs.Told.{told};
ghost use Rattle.record.specs.Reading.{read_of, dwords_of};
ghost use Rattle.intake.specs.What.{what_of};
ghost use Rattle.book.specs.Reading.{check_of};
ghost use Rattle.text.specs.Told.{number_in};
ghost use Rattle.entry.specs.Entry.{adapter_of, unplug_of};
ghost use Rattle.c_entry.specs.Flat.{byte_of};
ghost use Rattle.capi.specs.Told.{as_number, flat_told};
ghost use Rattle.capi.specs.Calls.{Read, LineRead, EitherRead, Wrote, answer_by, what_by, written_by, name_by, blank_entry};

use book::check;
use c_entry::{ABSENT, Flat, or_absent};
use entry::Entry;
use entry::events::{Event, Name};
use intake::{What, what_is};
use refusal::Refusal;
use scan::{Pieces, parse};
use writer::write;

// Number 0 and the entry, or the number that refuses the text and a blank entry.
#[repr(C)]
#[derive(Clone, Copy)]
pub struct EntryAnswer {
    pub number: u8,
    pub entry: Flat,
}

// 2 for a record, 1 for a line, both with number 0; 0 for neither, with the number that refuses the text.
#[repr(C)]
#[derive(Clone, Copy)]
pub struct WhatAnswer {
    pub number: u8,
    pub what: u8,
}

// Number 0 and how many bytes were written, or the number that refuses the entry and no byte.
#[repr(C)]
#[derive(Clone, Copy)]
pub struct WriteAnswer {
    pub number: u8,
    pub bytes: usize,
}

// An event's name and its length; zeros stand behind it.
#[repr(C)]
#[derive(Clone, Copy)]
pub struct EventName {
    pub bytes: [u8; 14],
    pub len: usize,
}

// The entry of a line, its dwords in the first slots. A bad piece of its data refuses it: 18.
pub fn ck_parse(line: &[u8], slots: &mut [u32]) -> EntryAnswer
    ensures { LineRead P.Strict line.now slots.old slots.new result }
{
    parse(line, Pieces::Strict, slots).into()
}

// The same, but bad pieces are left out.
pub fn ck_parse_lenient(line: &[u8], slots: &mut [u32]) -> EntryAnswer
    ensures { LineRead P.Lenient line.now slots.old slots.new result }
{
    parse(line, Pieces::Lenient, slots).into()
}

// The entry of a record, its dwords in the first slots.
pub fn ck_record_read(text: &[u8], slots: &mut [u32]) -> EntryAnswer
    ensures { Read (read_of text.now (length slots.old)) (dwords_of text.now) slots.old slots.new result }
{
    record::read(text, slots).into()
}

// The entry of a text that is a record if it starts with A1, else a line. A bad piece of a line's data refuses it: 18.
pub fn ck_read(text: &[u8], slots: &mut [u32]) -> EntryAnswer
    ensures { EitherRead P.Strict text.now slots.old slots.new result }
{
    read_by(text, Pieces::Strict, slots)
}

// The same, but bad pieces are left out.
pub fn ck_read_lenient(text: &[u8], slots: &mut [u32]) -> EntryAnswer
    ensures { EitherRead P.Lenient text.now slots.old slots.new result }
{
    read_by(text, Pieces::Lenient, slots)
}

// A text by the choice.
fn read_by(text: &[u8], pieces: Pieces, slots: &mut [u32]) -> EntryAnswer
    ensures { EitherRead pieces text.now slots.old slots.new result }
{
    intake::read(text, pieces, slots).into()
}

// What a text is, by the strict grammar of lines.
pub fn ck_what(text: &[u8]) -> WhatAnswer
    ensures { result ≡ what_by (what_of P.Strict text.now) }
{
    tell_what(text, Pieces::Strict)
}

// The same by the lenient one.
pub fn ck_what_lenient(text: &[u8]) -> WhatAnswer
    ensures { result ≡ what_by (what_of P.Lenient text.now) }
{
    tell_what(text, Pieces::Lenient)
}

// What a text is, by the choice.
#[tactic(auto, unfolding(crate::specs::Calls::what_by))]
fn tell_what(text: &[u8], pieces: Pieces) -> WhatAnswer
    ensures { result ≡ what_by (what_of pieces text.now) }
{
    match what_is(text, pieces) {
        Ok(What::Record) => WhatAnswer { number: 0, what: 2 },
        Ok(What::Line) => WhatAnswer { number: 0, what: 1 },
        Err(refusal) => WhatAnswer {
            number: refusal.number(),
            what: 0,
        },
    }
}

// The record of an entry into the first bytes of the buffer. Numbers that no entry has are out of the record's ranges: 37.
pub fn ck_record_write(text: &[u8], entry: Flat, dwords: &[u32], out: &mut [u8]) -> WriteAnswer
    ensures { Wrote text.now entry dwords.now out.old out.new result }
{
    match entry.raise() {
        Some(e) => write(text, e, dwords, out).into(),
        None => WriteAnswer::from(Err(Refusal::BadEntry)),
    }
}

// 0 for a book that belongs to the grammar, else 20.
pub fn ck_book_check(book: &[u8]) -> u8
    ensures { result ≡ number_in (check_of book.now) }
{
    match check(book) {
        Ok(()) => 0,
        Err(refusal) => refusal.number(),
    }
}

// The name of an event's code.
#[tactic(auto, unfolding(crate::specs::Calls::name_by))]
pub fn ck_event_name(code: u8) -> EventName
    ensures { result ≡ name_by code }
{
    let Name { bytes, len } = Event::from_code(code).name();
    EventName { bytes, len }
}

// The adapter of an entry, or ABSENT.
pub fn ck_adapter_num(entry: Flat) -> u32
    ensures { result ≡ flat_told (adapter_of (byte_of entry.code) (byte_of entry.port)) }
{
    or_absent(entry.entry().adapter_num())
}

// 1 if the entry reports an unplug, 0 if not, or ABSENT.
pub fn ck_unplug(entry: Flat) -> u32
    ensures { result ≡ flat_told (as_number (unplug_of (byte_of entry.unplug))) }
{
    or_absent(entry.entry().unplug())
}

impl From<Result<Entry, Refusal>> for EntryAnswer {
    ghost from_gives = { λ answer r. r ≡ answer_by (told answer) };

    #[tactic(auto, unfolding(crate::specs::Calls::answer_by))]
    fn from(answer: Result<Entry, Refusal>) -> EntryAnswer {
        match answer {
            Ok(e) => EntryAnswer {
                number: 0,
                entry: e.into(),
            },
            Err(refusal) => EntryAnswer {
                number: refusal.number(),
                entry: blank_entry(),
            },
        }
    }
}

impl From<Result<usize, Refusal>> for WriteAnswer {
    ghost from_gives = { λ answer r. r ≡ written_by (told answer) };

    #[tactic(auto, unfolding(crate::specs::Calls::written_by))]
    fn from(answer: Result<usize, Refusal>) -> WriteAnswer {
        match answer {
            Ok(bytes) => WriteAnswer { number: 0, bytes },
            Err(refusal) => WriteAnswer {
                number: refusal.number(),
                bytes: 0,
            },
        }
    }
}

// Stands where there is no entry: zeros, and no optional field.
pub fn blank_entry() -> Flat
    ensures { result ≡ blank_entry }
{
    Flat {
        task_at: 0,
        task_len: 0,
        pid: 0,
        cpu: 0,
        seconds: 0,
        microseconds: 0,
        function_at: 0,
        function_len: 0,
        kind: 0,
        size: 0,
        dropped: 0,
        domain: 0,
        route: 0,
        offset: ABSENT,
        code: ABSENT,
        len: ABSENT,
        port: ABSENT,
        config: ABSENT,
        seq: ABSENT,
        unplug: ABSENT,
        dwords: 0,
    }
}
