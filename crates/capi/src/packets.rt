// The calls on packets.
// C's interface: a kind is a number, and any is taken.
ghost use Rattle.refusal.specs.Told.{told};
ghost use Rattle.std.specs.Prelude.{◌≡◌, length};
ghost use Rattle.scan.specs.declared.Pieces.TheVariants as P;
ghost use Rattle.packet.specs.Packet.{parse_of, over_of, places_of};
ghost use Rattle.batch.specs.Batch.{Batch};
ghost use Rattle.capi.specs.Packets.{Described, packet_by, uuid_by, text_by, TextRead};

use book::Uuid;
use c_entry::or_absent;
use packet::Packet;
use refusal::Refusal;
use scan::Pieces;

// Number 0 and the packet, or the number that refuses it, no start and no UUID. A start is a word or ABSENT; `has_uuid` is 1 where the four
// dwords are a UUID, else 0, and they are 0.
#[repr(C)]
#[derive(Clone, Copy)]
pub struct PacketAnswer {
    pub number: u8,
    pub start: u32,
    pub has_uuid: u8,
    pub first: u32,
    pub second: u32,
    pub third: u32,
    pub fourth: u32,
}

// The packet of a kind over a book, the place of each dword's entry in the first places.
pub fn ck_packet(kind: u8, book: &[u8], dwords: &[u32], places: &mut [u32]) -> PacketAnswer
    ensures { Described (parse_of kind book.now dwords.now (length places.old)) (places_of kind book.now dwords.now) places.old places.new result }
{
    packet::parse(kind, book, dwords, places).into()
}

// The same over a book that was checked before, and is not again. Any other book is taken too.
pub fn ck_checked_packet(kind: u8, book: &[u8], dwords: &[u32], places: &mut [u32]) -> PacketAnswer
    ensures { Described (over_of kind book.now dwords.now (length places.old)) (places_of kind book.now dwords.now) places.old places.new result }
{
    packet::parse_over(kind, book, dwords, places).into()
}

// Many packets over one book, which is checked once.
pub fn ck_packet_all(
    book: &[u8],
    kinds: &[u8],
    counts: &[u32],
    dwords: &[u32],
    places: &mut [u32],
    codes: &mut [u32],
) -> usize
    ensures { Batch book.now kinds.now counts.now dwords.now places.old places.new codes.old codes.new result }
{
    batch::parse_all(book, kinds, counts, dwords, places, codes)
}

impl PacketAnswer {
    fn new(number: u8, start: Option<u16>, uuid: Option<Uuid>) -> PacketAnswer
        ensures { result ≡ uuid_by number start uuid }
    {
        let start = or_absent(start);
        match uuid {
            Some(uuid) => PacketAnswer {
                number,
                start,
                has_uuid: 1,
                first: uuid.first,
                second: uuid.second,
                third: uuid.third,
                fourth: uuid.fourth,
            },
            None => PacketAnswer {
                number,
                start,
                has_uuid: 0,
                first: 0,
                second: 0,
                third: 0,
                fourth: 0,
            },
        }
    }
}

impl From<Result<Packet, Refusal>> for PacketAnswer {
    ghost from_gives = { λ answer r. r ≡ packet_by (told answer) };

    #[tactic(auto, unfolding(crate::specs::Packets::packet_by, crate::specs::Packets::made_by))]
    fn from(answer: Result<Packet, Refusal>) -> PacketAnswer {
        match answer {
            Ok(packet) => PacketAnswer::new(0, packet.start, packet.uuid),
            Err(refusal) => PacketAnswer::new(refusal.number(), None, None),
        }
    }
}

// A text's packet: its kind and how many dwords it has, 0 for a refusal, and what `ck_packet` tells of it.
#[repr(C)]
#[derive(Clone, Copy)]
pub struct TextPacket {
    pub kind: u8,
    pub dwords: usize,
    pub packet: PacketAnswer,
}

// The packet of a text that is a record if it starts with A1, else a line: its dwords in the first slots, the places of their entries in the
// first places. Numbers of the text come before those of the packet. A bad piece of a line's data refuses it: 18.
pub fn ck_read_packet(text: &[u8], book: &[u8], slots: &mut [u32], places: &mut [u32]) -> TextPacket
    ensures { TextRead P.Strict text.now book.now slots.old slots.new places.old places.new result }
{
    read_packet_by(text, Pieces::Strict, book, slots, places)
}

// The same, but bad pieces are left out.
pub fn ck_read_packet_lenient(
    text: &[u8],
    book: &[u8],
    slots: &mut [u32],
    places: &mut [u32],
) -> TextPacket
    ensures { TextRead P.Lenient text.now book.now slots.old slots.new places.old places.new result }
{
    read_packet_by(text, Pieces::Lenient, book, slots, places)
}

// A text's packet by the choice.
fn read_packet_by(
    text: &[u8],
    pieces: Pieces,
    book: &[u8],
    slots: &mut [u32],
    places: &mut [u32],
) -> TextPacket
    ensures { TextRead pieces text.now book.now slots.old slots.new places.old places.new result }
{
    intake::packet(text, pieces, book, slots, places).into()
}

impl From<Result<Packet, Refusal>> for TextPacket {
    ghost from_gives = { λ answer r. r ≡ text_by (told answer) };

    #[tactic(auto, unfolding(crate::specs::Packets::text_by, crate::specs::Packets::of_packet, crate::specs::Packets::packet_by))]
    fn from(answer: Result<Packet, Refusal>) -> TextPacket {
        let (kind, dwords) = match answer {
            Ok(packet) => (packet.kind, packet.dwords),
            Err(_) => (0, 0),
        };
        TextPacket {
            kind,
            dwords,
            packet: answer.into(),
        }
    }
}
