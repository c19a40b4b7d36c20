// The mark below a bad digit. Before that digit stand only hex digits and `0x`, which are shown as they are, so the mark is below it.
ghost use Rattle.std.specs.Prelude.{◌+◌, replicate};
ghost use Rattle.listing_rows.specs.Rows.{Room, PutOn};
ghost use Rattle.why_rows.specs.Rows.{CaretRoom, caret_text, mark_text};

use print::page::Page;
use text::number::BadNumber;
use unanswered_rows::parts::put_text;

#[tactic(auto, using(crate::proofs::Rowing::nothing_on), unfolding(crate::specs::Rows::caret_text))]
pub fn put_caret(page: &mut Page, reason: BadNumber)
    requires { CaretRoom reason page.old }
    ensures { PutOn page.old (caret_text reason) page.new }
{
    if let BadNumber::BadDigit(place) = reason {
        put_mark(page, place);
    }
}

fn put_mark(page: &mut Page, place: usize)
    requires { Room page.old (place + 6) }
    ensures { PutOn page.old (mark_text place) page.new }
{
    put_text(page, b"    ");
    put_blanks(page, place);
    put_text(page, b"^\n");
}

fn put_blanks(page: &mut Page, n: usize)
    requires { Room page.old n }
    ensures { PutOn page.old (replicate n 32) page.new }
{
    for i in 0..n {
        page.put(b" ");
    }
}
