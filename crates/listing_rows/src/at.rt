// The rows at a place of a buffer, for callers that keep no page.
// `filters` is lent two buffers at each call and keeps their places in between, so it has no page.
ghost use Rattle.std.specs.Prelude.{◌+◌, ◌≤◌, length};
ghost use Rattle.listing_rows.specs.Rows.{Put, refused_row, entry_row, totals_row};

use print::page::Page;

pub fn put_refused(out: &mut [u8], at: usize, line: u64, number: u8) -> usize
    requires { at + 64 ≤ length out.old }
    ensures { Put out.old at (refused_row line number) out.new result }
{
    let mut page = Page { out, at };
    crate::put_refused(&mut page, line, number);
    page.at
}

pub fn put_entry(out: &mut [u8], at: usize, line: u64, kind: u8, dwords: u64) -> usize
    requires { at + 64 ≤ length out.old }
    ensures { Put out.old at (entry_row line kind dwords) out.new result }
{
    let mut page = Page { out, at };
    crate::put_entry(&mut page, line, kind, dwords);
    page.at
}

pub fn put_totals(out: &mut [u8], at: usize, lines: u64, entries: u64) -> usize
    requires { at + 64 ≤ length out.old }
    ensures { Put out.old at (totals_row lines entries) out.new result }
{
    let mut page = Page { out, at };
    crate::put_totals(&mut page, lines, entries);
    page.at
}
