// The rows of `why`. A row takes at most 256 bytes and five for each byte of its text, which is what a caller makes room for.
//
//     put_row      an unreadable hex number of a line
//     put_totals   how many of each there were
#![tactic(auto)]

mod caret;
mod name;
pub mod tally;

ghost use Rattle.std.specs.Prelude.{◌+◌, ◌*◌, length};
ghost use Rattle.listing_rows.specs.Rows.{Room, PutOn};
ghost use Rattle.unanswered_rows.specs.Parts.{PartOn};
ghost use Rattle.why_rows.specs.Rows.{PlaceWithin, row_text, head_text, reason_text, place_text, width_text, shown_text, totals_text, reasons_text};

use crate::caret::put_caret;
use crate::name::put_name;
use crate::tally::Counts;
use escape::put_escaped;
use print::page::Page;
use reasons::Key;
use text::number::BadNumber;
use unanswered_rows::parts::{put_number, put_text};

// Which number of a line: the value of a key, or the piece of its data of that number, from 0.
#[derive(Clone, Copy, Debug, PartialEq, Eq, Hash)]
pub enum What {
    Key(Key),
    Piece(u64),
}

// The row of a number of the line with that number, and why it is none. A bad digit's place counts from the text's start, a leading `0x` counted. Asked
// for: room, and a bad digit that is in the text, both of which `say_text` of the program has.
pub fn put_row(page: &mut Page, line: u64, what: What, text: &[u8], reason: BadNumber)
    requires room { Room page.old (256 + 5 * length text.now) }
    requires within { PlaceWithin reason (length text.now) }
    ensures { PutOn page.old (row_text line what text.now reason) page.new }
{
    put_head(page, line, what);
    put_reason(page, what, reason);
    put_shown(page, text);
    put_caret(page, reason);
}

fn put_head(page: &mut Page, line: u64, what: What)
    requires { Room page.old 63 }
    ensures { PartOn page.old (head_text line what) page.new 63 }
{
    put_number(page, b"line ", line);
    put_text(page, b", ");
    put_name(page, what);
    put_text(page, b": ");
}

#[tactic(auto, using(unanswered_rows::proofs::Joining::on_longer), unfolding(crate::specs::Rows::reason_text))]
fn put_reason(page: &mut Page, what: What, reason: BadNumber)
    requires { Room page.old 40 }
    ensures { PartOn page.old (reason_text what reason) page.new 40 }
{
    match reason {
        BadNumber::Empty => put_text(page, b"empty\n"),
        BadNumber::BadDigit(place) => put_place(page, place as u64),
        BadNumber::TooWide => put_width(page, what.bits()),
    }
}

fn put_place(page: &mut Page, place: u64)
    requires { Room page.old 40 }
    ensures { PartOn page.old (place_text place) page.new 40 }
{
    put_number(page, b"bad digit at place ", place);
    put_text(page, b"\n");
}

fn put_width(page: &mut Page, bits: u64)
    requires { Room page.old 39 }
    ensures { PartOn page.old (width_text bits) page.new 39 }
{
    put_number(page, b"too wide for ", bits);
    put_text(page, b" bits\n");
}

// The text itself, unless it has no byte.
fn put_shown(page: &mut Page, text: &[u8])
    requires { Room page.old (4 * length text.now + 5) }
    ensures { PartOn page.old (shown_text text.now) page.new (4 * length text.now + 5) }
{
    if text.is_empty() {
        return;
    }
    put_text(page, b"    ");
    put_escaped(page, text);
    put_text(page, b"\n");
}

// The last row.
pub fn put_totals(page: &mut Page, counts: Counts)
    requires { Room page.old 256 }
    ensures { PutOn page.old (totals_text counts) page.new }
{
    put_number(page, b"lines ", counts.lines);
    put_number(page, b" payloads ", counts.payloads);
    put_number(page, b" unreadable ", counts.unreadable);
    put_reasons(page, counts);
}

fn put_reasons(page: &mut Page, counts: Counts)
    requires { Room page.old 92 }
    ensures { PartOn page.old (reasons_text counts) page.new 92 }
{
    put_number(page, b": empty ", counts.empty);
    put_number(page, b", bad digit ", counts.bad);
    put_number(page, b", too wide ", counts.wide);
    put_text(page, b"\n");
}
