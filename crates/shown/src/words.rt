// A kind, a description's source, and what document 01's numbers mean, in words.
// A kind is a number here, as the entry has it.
ghost use Rattle.channel.specs.Sink.{Kept};

use channel::sink::Outlet;
use entry::kind::Kind;
use field::Source;
use refusal::Refusal;
use saying::say_number;

pub fn kind_words(kind: u8) -> &'static [u8] {
    match Kind::try_from(kind) {
        Ok(Kind::ReadRequest) => b"read request",
        Ok(Kind::ReadResponse) => b"read response",
        Ok(Kind::WriteRequest) => b"write request",
        Ok(Kind::WriteResponse) => b"write response",
        Ok(Kind::Error) => b"error",
        Ok(Kind::NotifyAck) => b"notification acknowledged",
        Ok(Kind::Event) => b"hot plug event",
        Ok(Kind::XDomainRequest) => b"inter-domain request",
        Ok(Kind::XDomainResponse) => b"inter-domain response",
        Ok(Kind::IcmEvent) => b"ICM event",
        Ok(Kind::IcmCommand) => b"ICM command",
        Ok(Kind::IcmResponse) => b"ICM response",
        _ => b"unknown kind",
    }
}

// The table that describes a dword, where it is not the kind's own.
pub fn source_words(source: Source) -> &'static [u8] {
    match source {
        Source::Control(_) => b"",
        Source::Header(_) => b"  (header)",
        Source::Protocol(_) => b"  (protocol)",
        Source::Bare => b"  -",
    }
}

// What refuses a line, a packet or a record: its number and its sentence.
pub fn say_refusal(outlet: &mut Outlet, word: &[u8], refusal: Refusal)
    ensures { Kept outlet.old outlet.new }
{
    say_number(outlet, word, refusal.number() as u64);
    outlet.say(b": ");
    outlet.say(refusal_words(refusal));
    outlet.say(b"\n");
}

fn refusal_words(refusal: Refusal) -> &'static [u8] {
    match refusal {
        Refusal::Idle => b"the line is empty, a newline alone, or a comment",
        Refusal::LongLine => b"the line has more than 4,096 bytes",
        Refusal::NotAscii => b"the line has a byte of 128 or more",
        Refusal::NoColon => b"no colon parts header from payload",
        Refusal::NoTask => b"the header has no task",
        Refusal::NoPid => b"the header has no pid, or one past 32 bits",
        Refusal::NoCpu => b"the header has no CPU in brackets",
        Refusal::NoTimestamp => b"the header has no timestamp, or one with a part past 63 bits",
        Refusal::NoFunction => b"the header does not end with a function",
        Refusal::NoType => b"the payload has no `type`",
        Refusal::NoSize => b"`size` is missing or no decimal of 16 bits",
        Refusal::NoDomain => b"`domain` is missing or no decimal of 32 bits",
        Refusal::NoRoute => b"`route` is missing or no hex number of 64 bits",
        Refusal::NoData => b"`data` is missing or not in brackets",
        Refusal::ManyDwords => b"the line has more than 256 dwords",
        Refusal::BadPiece => b"a piece of `data` is no hex number of 32 bits",
        Refusal::BadBook => b"the book breaks its grammar",
        Refusal::NoKind => b"the packet is of no known kind",
        Refusal::NoTable => b"the book has no control table for the kind",
        Refusal::NoHeaderTable => b"the book has no header table for kind 8 or 9",
        Refusal::LongPacket => b"the packet has more than 256 dwords",
        Refusal::ShortPacket =>
            b"a packet of kind 2 or 3 has fewer dwords than its table has entries",
        Refusal::Overrun => b"a field of the record runs past the end",
        Refusal::BadTag => b"a tag of the record is unknown, repeated or not ascending",
        Refusal::MissingTag => b"a required tag of the record is missing",
        Refusal::BadBody => b"the body of a record's field breaks its rule",
        Refusal::CutRecord =>
            b"the stream ends inside a record (one that says more than 5,227 bytes is 55)",
        Refusal::LongRecord => b"the record says that it has more than 5,227 bytes",
        _ => b"refused",
    }
}
