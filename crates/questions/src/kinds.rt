// What a packet is by its kind.
// Two tests here and two in packet's `numbers`, each of two kinds: one over both would say no less at each call.
ghost use Rattle.std.specs.Prelude.{◌≡◌};
ghost use Rattle.questions.specs.Described.{is_read, is_write};

use entry::kind::Kind;

// Read requests and responses.
#[tactic(auto, unfolding(crate::specs::Described::is_read))]
pub fn is_reading(kind: u8) -> bool
    ensures { result ≡ is_read kind }
{
    kind == Kind::ReadRequest as u8 || kind == Kind::ReadResponse as u8
}

// Write requests and responses.
#[tactic(auto, unfolding(crate::specs::Described::is_write))]
pub fn is_writing(kind: u8) -> bool
    ensures { result ≡ is_write kind }
{
    kind == Kind::WriteRequest as u8 || kind == Kind::WriteResponse as u8
}
