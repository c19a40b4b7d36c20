// Notification codes, the events they stand for, and the names those print.
ghost use Rattle.std.specs.Prelude.{◌≡◌, take};
ghost use Rattle.entry.specs.Event.{event_of, name_of, padded};

use crate::codes::{decide, decimal, name_at};

#[derive(Clone, Copy, Debug, PartialEq, Eq, Hash)]
pub enum Event {
    ErrConn,
    ErrLink,
    ErrAddr,
    ErrAdp,
    HpAck,
    ErrEnum,
    ErrNua,
    ErrLen,
    ErrHec,
    ErrFc,
    ErrPlug,
    ErrLock,
    DpBw,
    RopCmplt,
    PopCmplt,
    PcieWake,
    DpConChange,
    DptxDiscovery,
    LinkRecovery,
    AsymLink,
    Unknown(u8),
}

// The longest name has 14 bytes. What stands behind the name's length is zero. The two fields are those of C's EventName, and no ghost field bounds the
// length: `padded`, over which `padded_tells_code` is stated, makes a `Name` of any list.
#[derive(Clone, Copy, Debug, PartialEq, Eq, Hash)]
pub struct Name {
    pub bytes: [u8; 14],
    pub len: usize,
}

impl Name {
    // The name alone, without the zeros.
    pub fn as_bytes(&self) -> &[u8]
        ensures { result.now ≡ take self.now.len self.now.bytes }
    {
        &self.bytes[..self.len.min(14)]
    }
}

impl Event {
    // The event of a code. The gaps between the named codes stay unknown and keep their code.
    pub fn from_code(code: u8) -> Self
        ensures { result ≡ event_of code }
    {
        decide(code).event
    }

    // The name that an event prints: that in its row; an unknown one prints its code in decimal.
    #[tactic(auto, unfolding(crate::specs::Event::name_of))]
    pub fn name(self) -> Name
        ensures { result ≡ padded (name_of self) }
    {
        match self {
            Event::ErrConn => name_at(0),
            Event::ErrLink => name_at(1),
            Event::ErrAddr => name_at(2),
            Event::ErrAdp => name_at(4),
            Event::HpAck => name_at(7),
            Event::ErrEnum => name_at(8),
            Event::ErrNua => name_at(9),
            Event::ErrLen => name_at(11),
            Event::ErrHec => name_at(12),
            Event::ErrFc => name_at(13),
            Event::ErrPlug => name_at(14),
            Event::ErrLock => name_at(15),
            Event::DpBw => name_at(32),
            Event::RopCmplt => name_at(33),
            Event::PopCmplt => name_at(34),
            Event::PcieWake => name_at(35),
            Event::DpConChange => name_at(36),
            Event::DptxDiscovery => name_at(37),
            Event::LinkRecovery => name_at(38),
            Event::AsymLink => name_at(39),
            Event::Unknown(code) => decimal(code),
        }
    }
}
