// The questions of a packet, each of a kind, a book and dwords. Numbers 20 to 25 come before any answer; the book is checked once.
//
//     route, cm                              from the first two dwords; number 27 under two
//     adapter_num, data_address, data_size   a bit range's value, cut to its width
//     data_start, data                       where the data view starts, and the view: a part of the lent dwords
//     is_read, is_write, is_xdomain          by the kind
//     uuid, uuid_by_name                     four fields of one name
//     packet_type, packet_type_name          number 28 where the value has no name
//     field_by_offset, field_by_name, field_by_bitfield_name
//     described::..                          the same of a packet whose places were filled by `packet::parse`, with no check of the book
//
// Nothing that is lent is changed.
//
// A kind is a number here: `parse` of packet takes any and refuses by 21 or 22 what is none, so a `Kind` would ask more of callers.
#![tactic(auto)]

pub mod described;
pub mod kinds;
mod passed;

ghost use Rattle.std.specs.Prelude.{◌≡◌};
ghost use Rattle.std.specs.Fn.{FnOnceReturnsAt};
ghost use Rattle.refusal.specs.Told.{told, told_maybe};
ghost use Rattle.questions.specs.Questions.{
  route_of,
  cm_of,
  adapter_of,
  address_of,
  size_of,
  start_of,
  DataView,
  read_of,
  write_of,
  xdomain_of,
  uuid_answer,
  uuid_by_name,
  type_of,
  TypeNamePart,
  field_by_offset,
  field_by,
  Asked,
};

use crate::described::{adapter_in, address_in, field_at, field_with, size_in, type_in, uuid_in};
use crate::kinds::{is_reading, is_writing};
use crate::passed::pass;
use book::Uuid;
use field::{Field, Place};
use packet::field::{Ask, name_in};
use packet::numbers::is_xdomain_kind;
use refusal::Refusal;

// A packet type: its number, and where the book names it.
#[derive(Clone, Copy, Debug, PartialEq, Eq, Hash)]
pub struct PacketType {
    pub value: u32,
    pub name: Place,
}

// The route: the first dword above the second; 27 if there are fewer than two.
pub fn route(kind: u8, book: &[u8], dwords: &[u32]) -> Result<u64, Refusal>
    ensures { told result ≡ route_of kind book.now dwords.now }
{
    pass(kind, book, dwords)?;
    described::route_in(dwords)
}

// The top bit of the route; 27 as for the route.
pub fn cm(kind: u8, book: &[u8], dwords: &[u32]) -> Result<bool, Refusal>
    ensures { told result ≡ cm_of kind book.now dwords.now }
{
    pass(kind, book, dwords)?;
    described::cm_in(dwords)
}

// The adapter number, cut to 8 bits.
pub fn adapter_num(kind: u8, book: &[u8], dwords: &[u32]) -> Result<Option<u8>, Refusal>
    ensures { told_maybe result ≡ adapter_of kind book.now dwords.now }
{
    ask(
        kind,
        book,
        dwords,
        |places| adapter_in(book, dwords, places),
    )
}

// The address of kinds 1 to 7 and 10 to 12, the offset of kinds 8 and 9, cut to 16 bits.
pub fn data_address(kind: u8, book: &[u8], dwords: &[u32]) -> Result<Option<u16>, Refusal>
    ensures { told_maybe result ≡ address_of kind book.now dwords.now }
{
    ask(
        kind,
        book,
        dwords,
        |places| address_in(kind, book, dwords, places),
    )
}

// The read size, write size or properties block size, by the kind, cut to 16 bits.
pub fn data_size(kind: u8, book: &[u8], dwords: &[u32]) -> Result<Option<u16>, Refusal>
    ensures { told_maybe result ≡ size_of kind book.now dwords.now }
{
    ask(
        kind,
        book,
        dwords,
        |places| size_in(kind, book, dwords, places),
    )
}

// Where the data view starts; absent where there is none.
pub fn data_start(kind: u8, book: &[u8], dwords: &[u32]) -> Result<Option<u16>, Refusal>
    ensures { told_maybe result ≡ start_of kind book.now dwords.now }
{
    let mut places = [0u32; 256];
    let packet = packet::parse(kind, book, dwords, &mut places[..256])?;
    Ok(packet.start)
}

// The data view: the caller's own dwords from its start on. Where there is no view, and for a refusal, an empty part at the start of the dwords:
// `data_start` tells which.
pub fn data<'a, 'b>(kind: u8, book: &'b [u8], dwords: &'a [u32]) -> &'a [u32]
    ensures { DataView kind book.now dwords.entry result }
{
    let Ok(Some(start)) = data_start(kind, book, dwords) else {
        return &dwords[..0];
    };
    &dwords[start as usize..]
}

// Is it a read packet: kind 1 or 2?
pub fn is_read(kind: u8, book: &[u8], dwords: &[u32]) -> Result<bool, Refusal>
    ensures { told result ≡ read_of kind book.now dwords.now }
{
    pass(kind, book, dwords)?;
    Ok(is_reading(kind))
}

// Is it a write packet: kind 3 or 4?
pub fn is_write(kind: u8, book: &[u8], dwords: &[u32]) -> Result<bool, Refusal>
    ensures { told result ≡ write_of kind book.now dwords.now }
{
    pass(kind, book, dwords)?;
    Ok(is_writing(kind))
}

// Is it an inter-domain packet: kind 8 or 9?
pub fn is_xdomain(kind: u8, book: &[u8], dwords: &[u32]) -> Result<bool, Refusal>
    ensures { told result ≡ xdomain_of kind book.now dwords.now }
{
    pass(kind, book, dwords)?;
    Ok(is_xdomain_kind(kind))
}

// The UUID of an inter-domain packet, as step 2 gathered it.
pub fn uuid(kind: u8, book: &[u8], dwords: &[u32]) -> Result<Option<Uuid>, Refusal>
    ensures { told_maybe result ≡ uuid_answer kind book.now dwords.now }
{
    let mut places = [0u32; 256];
    let packet = packet::parse(kind, book, dwords, &mut places[..256])?;
    Ok(packet.uuid)
}

// The values of the fields of that name, if there are exactly four.
pub fn uuid_by_name(
    kind: u8,
    book: &[u8],
    dwords: &[u32],
    name: &[u8],
) -> Result<Option<Uuid>, Refusal>
    ensures { told_maybe result ≡ uuid_by_name kind book.now dwords.now name.now }
{
    ask(
        kind,
        book,
        dwords,
        |places| uuid_in(book, name, dwords, places),
    )
}

// The packet type: the value of the first `Packet Type` range and where its name stands; 28 if it has none.
pub fn packet_type(kind: u8, book: &[u8], dwords: &[u32]) -> Result<Option<PacketType>, Refusal>
    ensures { told_maybe result ≡ type_of kind book.now dwords.now }
{
    ask(kind, book, dwords, |places| type_in(book, dwords, places))
}

// The name of the packet type: the caller's own bytes of the book, and an empty part at its start where `packet_type` gives none.
pub fn packet_type_name<'a, 'b>(kind: u8, book: &'b [u8], dwords: &'a [u32]) -> &'b [u8]
    ensures { TypeNamePart kind book.entry dwords.now result }
{
    let Ok(Some(named)) = packet_type(kind, book, dwords) else {
        return &book[..0];
    };
    name_in(book, named.name.at)
}

// The field at an offset.
pub fn field_by_offset(
    kind: u8,
    book: &[u8],
    dwords: &[u32],
    offset: u16,
) -> Result<Option<Field>, Refusal>
    ensures { told_maybe result ≡ field_by_offset kind book.now dwords.now offset }
{
    ask(
        kind,
        book,
        dwords,
        |places| field_at(kind, book, dwords, places, offset),
    )
}

// The first field of that name.
pub fn field_by_name(
    kind: u8,
    book: &[u8],
    dwords: &[u32],
    name: &[u8],
) -> Result<Option<Field>, Refusal>
    ensures { told_maybe result ≡ field_by kind book.now dwords.now Ask.Named name.now }
{
    field_asked(Ask::Named, kind, book, dwords, name)
}

// The first field with a bit range of that name.
pub fn field_by_bitfield_name(
    kind: u8,
    book: &[u8],
    dwords: &[u32],
    name: &[u8],
) -> Result<Option<Field>, Refusal>
    ensures { told_maybe result ≡ field_by kind book.now dwords.now Ask.Holds name.now }
{
    field_asked(Ask::Holds, kind, book, dwords, name)
}

// The first field as asked.
fn field_asked(
    asked: Ask,
    kind: u8,
    book: &[u8],
    dwords: &[u32],
    name: &[u8],
) -> Result<Option<Field>, Refusal>
    ensures { told_maybe result ≡ field_by kind book.now dwords.now asked name.now }
{
    ask(
        kind,
        book,
        dwords,
        |places| field_with(asked, kind, book, name, dwords, places),
    )
}

// A question of the places that a parse fills, once the packet is not refused.
fn ask<T, F: FnOnce(&[u32]) -> Result<Option<T>, Refusal>>(
    kind: u8,
    book: &[u8],
    dwords: &[u32],
    question: F,
) -> Result<Option<T>, Refusal>
    requires { F.IsAlwaysCallable question }
    ensures { Asked kind book.now dwords.now (FnOnceReturnsAt F.FnOnce question) result }
{
    let mut places = [0u32; 256];
    packet::parse(kind, book, dwords, &mut places[..256])?;
    question(&places[..dwords.len()])
}
