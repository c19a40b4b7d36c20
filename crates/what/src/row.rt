// The row that says what a text is. None takes more than 32 bytes.
ghost use Rattle.refusal.specs.Number.{number_of};
ghost use Rattle.listing_rows.specs.Rows.{Room, PutOn};
ghost use Rattle.intake.specs.What.{what_of};
ghost use Rattle.what.specs.Row.{neither_row, what_row};

use intake::{What, what_is};
use print::page::Page;
use refusal::Refusal;
use scan::Pieces;

pub fn put_answer(page: &mut Page, text: &[u8], pieces: Pieces)
    requires { Room page.old 32 }
    ensures { PutOn page.old (what_row (what_of pieces text.now)) page.new }
{
    match what_is(text, pieces) {
        Ok(What::Record) => page.put(b"record\n"),
        Ok(What::Line) => page.put(b"line\n"),
        Err(refusal) => put_neither(page, refusal),
    }
}

fn put_neither(page: &mut Page, refusal: Refusal)
    requires { Room page.old 32 }
    ensures { PutOn page.old (neither_row (number_of refusal)) page.new }
{
    page.put(b"neither ");
    page.put_decimal(refusal.number() as u64);
    page.put(b"\n");
}
