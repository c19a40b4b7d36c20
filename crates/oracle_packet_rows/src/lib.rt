// The answer to a packet as one row of text: its descriptions and every question, or the number that refuses it. A row that fits the page is
// whole; of one that does not, the parts that do not fit are left out.
//
//     put_answer    the row of a packet
// A kind is a number here, as packet's `parse` takes it.
#![tactic(auto, using(oracle_line_rows::proofs::Lent::buffer_size))]

ghost use Rattle.oracle_line_rows.specs.Lent.{OverSame};

mod asked;
mod fields;
mod told;

use crate::asked::put_all;
use crate::fields::count_control;
use crate::told::{put_name, put_number, put_told, put_uuid};
use oracle_line_rows::fields::{put_count, put_list, put_refused};
use print::page::Page;
use questions as ask;

// A packet that was described: the places are those of its dwords' entries.
#[derive(Clone, Copy)]
pub struct Packet<'a> {
    kind: u8,
    book: &'a [u8],
    dwords: &'a [u32],
    places: &'a [u32],
}

// The row of a packet, its places in those that are lent; the names to ask for stand each behind its length.
pub fn put_answer(
    page: &mut Page,
    kind: u8,
    book: &[u8],
    names: &[u8],
    dwords: &[u32],
    places: &mut [u32],
)
    ensures { OverSame page.old page.new }
{
    match packet::parse(kind, book, dwords, places) {
        Ok(_) => {
            // There is a place for each dword of a packet that was described.
            let n = dwords.len().min(places.len());
            let places = &places[..n];
            let packet = Packet {
                kind,
                book,
                dwords,
                places,
            };
            packet.put_row(page, names);
        }
        Err(refusal) => put_refused(page, b"refused ", refusal),
    }
    page.put(b"\n");
}

impl Packet<'_> {
    fn put_row(self, page: &mut Page, names: &[u8])
        ensures { OverSame page.old page.new }
    {
        self.put_head(page);
        self.put_route(page);
        self.put_data(page);
        self.put_kind(page);
        self.put_type(page);
        page.put(b" fields=");
        self.put_fields(page);
        page.put(b" asked=");
        put_all(page, self, names);
    }

    // What the dwords are described by.
    fn put_head(self, page: &mut Page)
        ensures { OverSame page.old page.new }
    {
        put_count(
            page,
            b"packet n=",
            count_control(self.kind, self.book) as u64,
        );
        page.put(b" places=");
        put_list(
            page,
            self.places,
            |page, place| page.put_decimal(place as u64),
        );
        page.put(b" sources=");
        self.put_sources(page);
    }

    fn put_route(self, page: &mut Page)
        ensures { OverSame page.old page.new }
    {
        let Packet {
            kind,
            book,
            dwords,
            ..
        } = self;
        put_uuid(page, b" uuid=", ask::uuid(kind, book, dwords));
        put_number(page, b" route=", ask::route(kind, book, dwords).map(Some));
        put_number(page, b" cm=", ask::cm(kind, book, dwords).map(Some));
    }

    // The view is said by the index of its first dword, and how many it has.
    fn put_data(self, page: &mut Page)
        ensures { OverSame page.old page.new }
    {
        let Packet {
            kind,
            book,
            dwords,
            ..
        } = self;
        let start = ask::data_start(kind, book, dwords);
        put_number(page, b" adapter=", ask::adapter_num(kind, book, dwords));
        put_number(page, b" address=", ask::data_address(kind, book, dwords));
        put_number(page, b" start=", start);
        put_number(page, b" size=", ask::data_size(kind, book, dwords));
        put_told(page, b" view=", start, |page, first| {
            page.put_decimal(first as u64);
            put_count(page, b"+", ask::data(kind, book, dwords).len() as u64);
        });
    }

    fn put_kind(self, page: &mut Page)
        ensures { OverSame page.old page.new }
    {
        let Packet {
            kind,
            book,
            dwords,
            ..
        } = self;
        put_number(page, b" read=", ask::is_read(kind, book, dwords).map(Some));
        put_number(
            page,
            b" write=",
            ask::is_write(kind, book, dwords).map(Some),
        );
        put_number(
            page,
            b" xdomain=",
            ask::is_xdomain(kind, book, dwords).map(Some),
        );
    }

    // The packet type's value and its name.
    fn put_type(self, page: &mut Page)
        ensures { OverSame page.old page.new }
    {
        let Packet {
            kind,
            book,
            dwords,
            ..
        } = self;
        put_told(
            page,
            b" type=",
            ask::packet_type(kind, book, dwords),
            |page, found| {
                page.put_decimal(found.value as u64);
                put_name(page, b":", ask::packet_type_name(kind, book, dwords));
            },
        );
    }
}
