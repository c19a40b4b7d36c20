// The calls on packets.
// C's interface: one symbol a name, and a kind is a number. What symbols share is in `capi` and below it.
ghost use Rattle.std.specs.Prelude.{length};
ghost use Rattle.scan.specs.declared.Pieces.TheVariants as P;
ghost use Rattle.packet.specs.Packet.{parse_of, over_of, places_of};
ghost use Rattle.batch.specs.Batch.{Batch};
ghost use Rattle.capi.specs.Packets.{Described, TextRead};

use capi::packets::{PacketAnswer, TextPacket};

#[unsafe(no_mangle)]
pub extern "C" fn ck_packet(
    kind: u8,
    book: &[u8],
    dwords: &[u32],
    places: &mut [u32],
) -> PacketAnswer
    ensures { Described (parse_of kind book.now dwords.now (length places.old)) (places_of kind book.now dwords.now) places.old places.new result }
{
    capi::packets::ck_packet(kind, book, dwords, places)
}

#[unsafe(no_mangle)]
pub extern "C" fn ck_checked_packet(
    kind: u8,
    book: &[u8],
    dwords: &[u32],
    places: &mut [u32],
) -> PacketAnswer
    ensures { Described (over_of kind book.now dwords.now (length places.old)) (places_of kind book.now dwords.now) places.old places.new result }
{
    capi::packets::ck_checked_packet(kind, book, dwords, places)
}

#[unsafe(no_mangle)]
pub extern "C" fn ck_packet_all(
    book: &[u8],
    kinds: &[u8],
    counts: &[u32],
    dwords: &[u32],
    places: &mut [u32],
    codes: &mut [u32],
) -> usize
    ensures { Batch book.now kinds.now counts.now dwords.now places.old places.new codes.old codes.new result }
{
    capi::packets::ck_packet_all(book, kinds, counts, dwords, places, codes)
}

#[unsafe(no_mangle)]
pub extern "C" fn ck_read_packet(
    text: &[u8],
    book: &[u8],
    slots: &mut [u32],
    places: &mut [u32],
) -> TextPacket
    ensures { TextRead P.Strict text.now book.now slots.old slots.new places.old places.new result }
{
    capi::packets::ck_read_packet(text, book, slots, places)
}

#[unsafe(no_mangle)]
pub extern "C" fn ck_read_packet_lenient(
    text: &[u8],
    book: &[u8],
    slots: &mut [u32],
    places: &mut [u32],
) -> TextPacket
    ensures { TextRead P.Lenient text.now book.now slots.old slots.new places.old places.new result }
{
    capi::packets::ck_read_packet_lenient(text, book, slots, places)
}
