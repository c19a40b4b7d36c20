// The parts of a row, each with how far it reaches.
ghost use Rattle.std.specs.Prelude.{◌+◌, ◌≤◌, length};
ghost use Rattle.listing_rows.specs.Rows.{Room, word_and_number};
ghost use Rattle.unanswered_rows.specs.Parts.{six_text, PartOn};

use print::digits::digits_of;
use print::page::Page;

pub fn put_text(page: &mut Page, word: &[u8])
    requires { Room page.old (length word.now) }
    ensures { PartOn page.old word.now page.new (length word.now) }
{
    page.put(word);
}

// A word and then a number.
pub fn put_number(page: &mut Page, word: &[u8], n: u64)
    requires { Room page.old (length word.now + 20) }
    ensures { PartOn page.old (word_and_number word.now n) page.new (length word.now + 20) }
{
    page.put(word);
    page.put_decimal(n);
}

// A number in at least six digits.
pub fn put_six(page: &mut Page, n: u64)
    requires { Room page.old 20 }
    ensures { PartOn page.old (six_text n) page.new 20 }
{
    let digits = digits_of(n);
    page.put(&digits.bytes[digits.from.min(14)..]);
}
