// In which table an entry stands: that whose body has its place.
ghost use Rattle.std.specs.Prelude.{◌≡◌};
ghost use Rattle.book.specs.Finders.{control_table, uuid_table};
ghost use Rattle.packet.specs.Packet.{zero_uuid};
ghost use Rattle.field.specs.Source.{stands_in};

use book::{Uuid, find};
use tlv::Step;

// Does the entry stand in the control table of the kind?
pub fn is_in_control(kind: u8, book: &[u8], entry: usize) -> bool
    ensures { result ≡ stands_in book.now (control_table book.now kind) entry }
{
    is_in(book, find::control_table(book, kind), entry)
}

// Does the entry stand in the header table?
pub fn is_in_header(book: &[u8], entry: usize) -> bool
    ensures { result ≡ stands_in book.now (uuid_table book.now zero_uuid) entry }
{
    is_in(book, find::uuid_table(book, Uuid::ZERO), entry)
}

// Is there a table, and is the place in its body?
fn is_in(book: &[u8], table: Option<usize>, place: usize) -> bool
    ensures { result ≡ stands_in book.now table place }
{
    let Some(at) = table else {
        return false;
    };
    let Step::Field { from, to, .. } = tlv::field_at(book, at) else {
        return false;
    };
    from <= place && place < to
}
