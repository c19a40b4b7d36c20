// What an entry asks of the table, in document 02's order of "else".
ghost use Rattle.std.specs.Prelude.{◌≡◌};
ghost use Rattle.slots.specs.Ask.{ask_of};
ghost use Rattle.slots.specs.Look.{is_asked};

use crate::{Four, Slot};
use entry::Entry;
use entry::kind::Kind;

// The last one is no entry's: a caller asks for the slot that has this rank.
#[derive(Clone, Copy, Debug, PartialEq, Eq, Hash)]
pub enum Ask {
    Dropped,
    Other,
    NoSeq,
    Request(Four),
    Response(Four),
    Rank(u32),
}

impl Ask {
    #[tactic(auto, unfolding(crate::specs::Ask::ask_of, crate::specs::Ask::by_kind, crate::specs::Ask::four_of, crate::specs::Ask::direction_of))]
    pub fn of(e: Entry) -> Ask
        ensures { result ≡ ask_of e }
    {
        if e.dropped {
            return Ask::Dropped;
        }
        let (requests, write) = match Kind::try_from(e.kind) {
            Ok(Kind::ReadRequest) => (true, 0),
            Ok(Kind::ReadResponse) => (false, 0),
            Ok(Kind::WriteRequest) => (true, 1),
            Ok(Kind::WriteResponse) => (false, 1),
            _ => return Ask::Other,
        };
        let Some(seq) = e.seq else {
            return Ask::NoSeq;
        };
        // Responses carry the route's top bit and requests do not.
        let four = Four {
            route: e.route % 0x8000_0000_0000_0000,
            domain: e.domain,
            seq,
            write,
        };
        if requests {
            Ask::Request(four)
        } else {
            Ask::Response(four)
        }
    }

    // Does a slot that waits have what is asked for?
    #[tactic(auto, unfolding(crate::specs::Look::is_asked, crate::specs::Look::same_four))]
    pub(crate) fn is_met(self, slot: Slot) -> bool
        ensures { result ≡ is_asked self slot }
    {
        match self {
            Ask::Response(four) => slot.four == four,
            Ask::Rank(rank) => slot.rank == rank,
            Ask::Dropped | Ask::Other | Ask::NoSeq | Ask::Request(_) => false,
        }
    }
}
