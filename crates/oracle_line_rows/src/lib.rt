// The answer to a line as one row of text: every field of its entry, or the number that refuses it. A row that fits the page is whole;
// of one that does not, the parts that do not fit are left out.
//
//     put_answer    the row of a line
//     put_row       an entry's fields
//     fields        a field of a row
//     rows          what a replaying program reads and writes
#![tactic(auto, using(crate::proofs::Lent::buffer_size))]

ghost use Rattle.oracle_line_rows.specs.Lent.{OverSame};

pub mod fields;
pub mod rows;

use crate::fields::{put_bytes, put_count, put_list, put_maybe, put_refused};
use entry::Entry;
use print::page::Page;
use scan::{Pieces, parse};

// The row of a line, read by the choice into the lent slots.
pub fn put_answer(page: &mut Page, line: &[u8], pieces: Pieces, slots: &mut [u32])
    ensures { OverSame page.old page.new }
{
    match parse(line, pieces, slots) {
        Ok(e) => put_row(page, line, slots, e),
        Err(refusal) => put_refused(page, b"refused ", refusal),
    }
    page.put(b"\n");
}

// An entry's fields, with no newline. Task and function lie in the text, the dwords in the slots.
pub fn put_row(page: &mut Page, text: &[u8], slots: &[u32], e: Entry)
    ensures { OverSame page.old page.new }
{
    put_head(page, text, e);
    put_body(page, e);
    put_optionals(page, e);
    put_questions(page, e);
    put_count(page, b" dwords=", e.dwords as u64);
    page.put(b" data=");
    put_list(page, e.data(slots), |page, dword| page.put_dword(dword));
}

// What the header says.
fn put_head(page: &mut Page, text: &[u8], e: Entry)
    ensures { OverSame page.old page.new }
{
    put_bytes(page, b"entry task=", e.task(text));
    put_count(page, b" pid=", e.pid);
    put_count(page, b" cpu=", e.cpu);
    put_count(page, b" sec=", e.seconds);
    put_count(page, b" usec=", e.microseconds);
    put_bytes(page, b" function=", e.function(text));
}

// What the payload must say.
fn put_body(page: &mut Page, e: Entry)
    ensures { OverSame page.old page.new }
{
    put_count(page, b" kind=", e.kind);
    put_count(page, b" size=", e.size);
    put_count(page, b" dropped=", e.dropped);
    put_count(page, b" domain=", e.domain);
    put_count(page, b" route=", e.route);
}

// What it may say.
fn put_optionals(page: &mut Page, e: Entry)
    ensures { OverSame page.old page.new }
{
    put_maybe(page, b" offset=", e.offset);
    put_maybe(page, b" event=", e.code);
    put_maybe(page, b" len=", e.len);
    put_maybe(page, b" port=", e.port);
    put_maybe(page, b" config=", e.config);
    put_maybe(page, b" seq=", e.seq);
    put_maybe(page, b" unplug=", e.unplug);
}

// What the entry's questions answer.
fn put_questions(page: &mut Page, e: Entry)
    ensures { OverSame page.old page.new }
{
    put_maybe(page, b" adapter=", e.adapter_num());
    put_maybe(page, b" unplugged=", e.unplug());
    page.put(b" name=");
    match e.event() {
        Some(event) => page.put(event.name().as_bytes()),
        None => page.put(b"-"),
    }
}
