// The questions by name: for each name the UUID, the field of that name, and the field with a bit range of that name.
ghost use Rattle.std.specs.Prelude.{◌<◌, length, IfSome};
ghost use Rattle.oracle_line_rows.specs.Lent.{OverSame};

use crate::Packet;
use crate::told::{put_number, put_uuid};
use field::Field;
use packet::field::Ask;
use print::page::Page;
use questions::described::{field_with, uuid_in};
use questions::{field_by_bitfield_name, field_by_name, uuid_by_name};
use refusal::Refusal;

// The first nine names are asked for as a caller does who has no places, the others by the places.
pub fn put_all(page: &mut Page, packet: Packet, names: &[u8])
    ensures { OverSame page.old page.new }
{
    let mut left = names;
    let mut turn = 0u32;
    while let Some((name, rest)) = split_name(left) {
        if 0 < turn {
            page.put(b",");
        }
        if turn < 9 {
            put_whole(page, packet, name);
        } else {
            put_described(page, packet, name);
        }
        turn = turn.saturating_add(1);
        left = rest;
    }
}

// The first of the names, which stands behind its length in one byte, and what is behind it.
fn split_name(names: &[u8]) -> Option<(&[u8], &[u8])>
    ensures { IfSome result (λ p. length p.1.now < length names.now) }
{
    let (length, rest) = names.split_first()?;
    rest.split_at_checked(*length as usize)
}

fn put_whole(page: &mut Page, packet: Packet, name: &[u8])
    ensures { OverSame page.old page.new }
{
    let Packet {
        kind,
        book,
        dwords,
        ..
    } = packet;
    put_uuid(page, b"", uuid_by_name(kind, book, dwords, name));
    put_index(page, field_by_name(kind, book, dwords, name));
    put_index(page, field_by_bitfield_name(kind, book, dwords, name));
}

// The same by the places.
fn put_described(page: &mut Page, packet: Packet, name: &[u8])
    ensures { OverSame page.old page.new }
{
    let Packet {
        kind,
        book,
        dwords,
        places,
    } = packet;
    put_uuid(page, b"", uuid_in(book, name, dwords, places));
    put_index(
        page,
        field_with(Ask::Named, kind, book, name, dwords, places),
    );
    put_index(
        page,
        field_with(Ask::Holds, kind, book, name, dwords, places),
    );
}

// The index of the dword that a field is of.
fn put_index(page: &mut Page, told: Result<Option<Field>, Refusal>)
    ensures { OverSame page.old page.new }
{
    put_number(
        page,
        b":",
        told.map(|found| found.map(|field| field.offset)),
    );
}
