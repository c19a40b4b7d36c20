// The rows of `unanswered`. No row takes more than 256 bytes, which is what a caller makes room for.
//
//     put_row      what became of a line
//     put_waits    a request that waits still
//     put_totals   how many of each there were
#![tactic(auto)]

pub mod gap;
mod hex;
pub mod parts;

ghost use Rattle.std.specs.Prelude.{◌≤◌, length};
ghost use Rattle.listing_rows.specs.Rows.{Room, PutOn};
ghost use Rattle.unanswered_rows.specs.Parts.{PartOn};
ghost use Rattle.unanswered_rows.specs.Rows.{row_text, word_row, answered_row, gap_text, waits_row, when_text, four_text, way_text, totals_text, others_text};

use crate::gap::{Gap, Moment};
use crate::hex::put_route;
use crate::parts::{put_number, put_six, put_text};
use listing_rows::put_refused;
use print::page::Page;
use refusal::Refusal;
use slots::Four;

// What became of an entry. An answer says which line it answers, and how many microseconds it came after that one, or before it.
#[derive(Clone, Copy, Debug, PartialEq, Eq, Hash)]
pub enum Row {
    Dropped,
    Other,
    NoSeq,
    Taken,
    TurnedAway,
    Answered { request: u64, gap: Gap },
    Stray,
}

// What is kept of a request beside its slot: its line's number and its time.
#[derive(Clone, Copy, Debug, PartialEq, Eq, Hash)]
pub struct Note {
    pub line: u64,
    pub at: Moment,
}

#[derive(Clone, Copy, Debug, PartialEq, Eq, Hash)]
pub struct Counts {
    pub lines: u64,
    pub entries: u64,
    pub taken: u64,
    pub answered: u64,
    pub away: u64,
    pub stray: u64,
}

// The row of the line with that number.
#[tactic(auto, unfolding(crate::specs::Rows::row_text))]
pub fn put_row(page: &mut Page, line: u64, row: Result<Row, Refusal>)
    requires { Room page.old 256 }
    ensures { PutOn page.old (row_text line row) page.new }
{
    match row {
        Ok(Row::Dropped) => put_word(page, line, b" dropped\n"),
        Ok(Row::Other) => put_word(page, line, b" other\n"),
        Ok(Row::NoSeq) => put_word(page, line, b" no seq\n"),
        Ok(Row::Taken) => put_word(page, line, b" taken\n"),
        Ok(Row::TurnedAway) => put_word(page, line, b" turned away\n"),
        Ok(Row::Answered { request, gap }) => put_answered(page, line, request, gap),
        Ok(Row::Stray) => put_word(page, line, b" stray\n"),
        Err(refusal) => put_refused(page, line, refusal.number()),
    }
}

fn put_word(page: &mut Page, line: u64, word: &[u8])
    requires room { Room page.old 256 }
    requires short { length word.now ≤ 20 }
    ensures { PutOn page.old (word_row line word.now) page.new }
{
    put_number(page, b"", line);
    put_text(page, word);
}

fn put_answered(page: &mut Page, line: u64, request: u64, gap: Gap)
    requires { Room page.old 256 }
    ensures { PutOn page.old (answered_row line request gap) page.new }
{
    put_number(page, b"", line);
    put_number(page, b" answered ", request);
    put_gap(page, gap);
    put_text(page, b"\n");
}

#[tactic(auto, using(crate::proofs::Joining::on_longer))]
fn put_gap(page: &mut Page, gap: Gap)
    requires { Room page.old 28 }
    ensures { PartOn page.old (gap_text gap) page.new 28 }
{
    match gap {
        Gap::After(n) => put_number(page, b" after ", n),
        Gap::Before(n) => put_number(page, b" before ", n),
    }
}

// The row of a request that waits.
pub fn put_waits(page: &mut Page, note: Note, four: Four)
    requires { Room page.old 256 }
    ensures { PutOn page.old (waits_row note four) page.new }
{
    put_when(page, note);
    put_four(page, four);
}

fn put_when(page: &mut Page, note: Note)
    requires { Room page.old 71 }
    ensures { PartOn page.old (when_text note) page.new 71 }
{
    put_number(page, b"waits ", note.line);
    put_number(page, b" at ", note.at.seconds);
    put_text(page, b".");
    put_six(page, note.at.microseconds);
}

fn put_four(page: &mut Page, four: Four)
    requires { Room page.old 85 }
    ensures { PartOn page.old (four_text four) page.new 85 }
{
    put_number(page, b" domain ", four.domain as u64);
    put_text(page, b" route 0x");
    put_route(page, four.route);
    put_number(page, b" seq ", four.seq as u64);
    put_way(page, four.write);
}

#[tactic(auto, using(crate::proofs::Joining::on_longer), unfolding(crate::specs::Rows::way_text))]
fn put_way(page: &mut Page, write: u8)
    requires { Room page.old 7 }
    ensures { PartOn page.old (way_text write) page.new 7 }
{
    if write == 0 {
        put_text(page, b" read\n");
    } else {
        put_text(page, b" write\n");
    }
}

// The last row.
pub fn put_totals(page: &mut Page, counts: Counts, waiting: u64)
    requires { Room page.old 256 }
    ensures { PutOn page.old (totals_text counts waiting) page.new }
{
    put_number(page, b"lines ", counts.lines);
    put_number(page, b" entries ", counts.entries);
    put_number(page, b" taken ", counts.taken);
    put_number(page, b" answered ", counts.answered);
    put_others(page, counts, waiting);
}

fn put_others(page: &mut Page, counts: Counts, waiting: u64)
    requires { Room page.old 90 }
    ensures { PartOn page.old (others_text counts waiting) page.new 90 }
{
    put_number(page, b" turned away ", counts.away);
    put_number(page, b" stray ", counts.stray);
    put_number(page, b" waiting ", waiting);
    put_text(page, b"\n");
}
