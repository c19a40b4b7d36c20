// Numbers 21 to 26 in their order, and where the data view starts.
ghost use Rattle.std.specs.Prelude.{◌≡◌, ◌&&◌, ltb};
ghost use Rattle.refusal.specs.Told.{told};
ghost use Rattle.book.specs.Finders.{entry_count};
ghost use Rattle.packet.specs.Packet.{is_read_response_or_write_request, is_xdomain, control_at, view_from, word};
ghost use Rattle.packet.specs.Inner.{header_of, open_of};

use crate::Tables;
use crate::field::Ask;
use crate::seek::first_asked;
use book::{Uuid, find};
use entry::kind::Kind;
use refusal::Refusal;

// Two tests of two kinds each: one over both would say no less at each call.
// Read responses and write requests: the data view starts behind the control entries.
#[tactic(auto, unfolding(crate::specs::Packet::is_read_response_or_write_request))]
pub fn is_read_response_or_write_request(kind: u8) -> bool
    ensures { result ≡ is_read_response_or_write_request kind }
{
    kind == Kind::ReadResponse as u8 || kind == Kind::WriteRequest as u8
}

// Inter-domain requests and responses.
#[tactic(auto, unfolding(crate::specs::Packet::is_xdomain))]
pub fn is_xdomain_kind(kind: u8) -> bool
    ensures { result ≡ is_xdomain kind }
{
    kind == Kind::XDomainRequest as u8 || kind == Kind::XDomainResponse as u8
}

// The tables of a packet with so many dwords and places, or the number that refuses it.
#[tactic(auto, using(crate::proofs::Opening::open_21, crate::proofs::Opening::open_22), unfolding(crate::specs::Inner::open_of))]
pub fn open(kind: u8, book: &[u8], count: usize, room: usize) -> Result<Tables, Refusal>
    ensures { told result ≡ open_of kind book.now count room }
{
    if kind == 0 {
        return Err(Refusal::NoKind);
    }
    let control = find::control_table(book, kind).ok_or(Refusal::NoTable)?;
    let header = header_for(kind, book)?;
    if 256 < count {
        return Err(Refusal::LongPacket);
    }
    if is_short(kind, book, control, count) {
        return Err(Refusal::ShortPacket);
    }
    if room < count {
        return Err(Refusal::FewPlaces);
    }
    Ok(Tables { control, header })
}

// The header table, where the kind asks for it.
#[tactic(auto, unfolding(crate::specs::Inner::header_of, crate::specs::Inner::header_for))]
fn header_for(kind: u8, book: &[u8]) -> Result<Option<usize>, Refusal>
    ensures { told result ≡ header_of kind book.now }
{
    if !is_xdomain_kind(kind) {
        return Ok(None);
    }
    let table = find::uuid_table(book, Uuid::ZERO).ok_or(Refusal::NoHeaderTable)?;
    Ok(Some(table))
}

// Has a packet with a data view fewer dwords than its table has entries?
fn is_short(kind: u8, book: &[u8], control: usize, count: usize) -> bool
    ensures { result ≡ (is_read_response_or_write_request kind && ltb count (entry_count book.now control)) }
{
    is_read_response_or_write_request(kind) && count < find::count_entries(book, control)
}

// Where the data view starts, cut to 16 bits.
pub fn start_of(kind: u8, book: &[u8], control: usize, places: &[u32]) -> Option<u16>
    requires { control ≡ control_at book.now kind }
    ensures { result ≡ word (view_from kind book.now places.now) }
{
    if is_read_response_or_write_request(kind) {
        let n = find::count_entries(book, control);
        return Some((n % 65_536) as u16);
    }
    if !is_xdomain_kind(kind) {
        return None;
    }
    let i = first_asked(book, Ask::Holds, b"Properties Block Generation", places, 0)?;
    Some(((i + 1) % 65_536) as u16)
}
