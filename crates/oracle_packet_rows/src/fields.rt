// The descriptions of a packet: the table of each dword's entry, and the fields with their bit ranges.
ghost use Rattle.std.specs.Prelude.{◌≡◌};
ghost use Rattle.oracle_line_rows.specs.Lent.{OverSame};
ghost use Rattle.oracle_packet_rows.specs.Count.{control_count};

use crate::Packet;
use crate::told::put_name;
use book::find;
use field::{Field, Range, Source, count_ranges, entry_of, field_name, nth_range, value_name};
use oracle_line_rows::fields::put_count;
use print::page::Page;
use questions::described::field_at;
use questions::field_by_offset;
use refusal::Refusal;

// How many entries the control table of a kind has, none without a table.
#[tactic(auto, unfolding(crate::specs::Count::control_count))]
pub fn count_control(kind: u8, book: &[u8]) -> usize
    ensures { result ≡ control_count book.now kind }
{
    find::control_table(book, kind).map_or(0, |table| find::count_entries(book, table))
}

impl Packet<'_> {
    // The letter of each dword's table; a dash for no dword.
    pub(crate) fn put_sources(self, page: &mut Page)
        ensures { OverSame page.old page.new }
    {
        if self.dwords.is_empty() {
            page.put(b"-");
        }
        for i in 0..self.dwords.len() {
            if let Ok(Some(field)) = self.field(i) {
                page.put(match field.source {
                    Source::Control(_) => b"c",
                    Source::Header(_) => b"h",
                    Source::Protocol(_) => b"p",
                    Source::Bare => b"-",
                });
            }
        }
    }

    // The described fields with a comma between them; a dash for none.
    pub(crate) fn put_fields(self, page: &mut Page)
        ensures { OverSame page.old page.new }
    {
        let start = page.at;
        for i in 0..self.dwords.len() {
            match self.field(i) {
                Ok(Some(field)) if entry_of(field) != 0 => {
                    if page.at != start {
                        page.put(b",");
                    }
                    put_field(page, self.book, field);
                }
                _ => {}
            }
        }
        if page.at == start {
            page.put(b"-");
        }
    }

    // The field of a dword: that of the first nine as a caller asks who has no places, the others by the places.
    fn field(self, i: usize) -> Result<Option<Field>, Refusal> {
        let Packet {
            kind,
            book,
            dwords,
            places,
        } = self;
        let offset = (i % 65_536) as u16;
        if i < 9 {
            field_by_offset(kind, book, dwords, offset)
        } else {
            field_at(kind, book, dwords, places, offset)
        }
    }
}

// A described field: its index, its name and its bit ranges.
fn put_field(page: &mut Page, book: &[u8], field: Field)
    ensures { OverSame page.old page.new }
{
    page.put_decimal(field.offset as u64);
    put_name(page, b":", field_name(book, field));
    for k in 0..count_ranges(book, field) {
        if let Some(range) = nth_range(book, field, k) {
            put_range(page, book, range);
        }
    }
}

// A bit range: its bits, its value, and the value's name.
fn put_range(page: &mut Page, book: &[u8], range: Range)
    ensures { OverSame page.old page.new }
{
    put_count(page, b";", range.low);
    put_count(page, b"-", range.high);
    put_count(page, b"=", range.value);
    put_name(page, b":", value_name(book, range));
}
