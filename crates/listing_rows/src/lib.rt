// The listing's rows of text. No row takes more than 64 bytes, which is what a caller makes room for.
#![tactic(auto)]

pub mod at;

ghost use Rattle.std.specs.Prelude.{◌+◌, length};
ghost use Rattle.listing_rows.specs.Rows.{Room, PutOn, word_and_number, refused_row, entry_row, totals_row};

use print::page::Page;

// The row of a refused line: its place among the lines, and the number.
pub fn put_refused(page: &mut Page, line: u64, number: u8)
    requires { Room page.old 64 }
    ensures { PutOn page.old (refused_row line number) page.new }
{
    page.put_decimal(line);
    put_number(page, b" refused ", number as u64);
    page.put(b"\n");
}

// The row of an entry: its place among the lines, its kind, and how many dwords it has.
pub fn put_entry(page: &mut Page, line: u64, kind: u8, dwords: u64)
    requires { Room page.old 64 }
    ensures { PutOn page.old (entry_row line kind dwords) page.new }
{
    page.put_decimal(line);
    put_number(page, b" kind ", kind as u64);
    put_number(page, b" dwords ", dwords);
    page.put(b"\n");
}

// The last row: how many lines there were, and how many were entries.
pub fn put_totals(page: &mut Page, lines: u64, entries: u64)
    requires { Room page.old 64 }
    ensures { PutOn page.old (totals_row lines entries) page.new }
{
    put_number(page, b"lines ", lines);
    put_number(page, b" entries ", entries);
    page.put(b"\n");
}

// A word and then a number.
fn put_number(page: &mut Page, word: &[u8], n: u64)
    requires { Room page.old (length word.now + 20) }
    ensures { PutOn page.old (word_and_number word.now n) page.new }
{
    page.put(word);
    page.put_decimal(n);
}
