// The programs that move their input: what each is made of, and its words.
ghost use Rattle.std.specs.Prelude.{◌≡◌};
ghost use Rattle.moving.specs.Programs.{filter_by, WholeIn};

use channel::sink::rows_in;
use filters::{Filter, whole_in};
use scan::Pieces;

// All but the listing take lines and records, and read lines by a choice.
#[derive(Clone, Copy)]
pub enum Program {
    Listing,
    Pack(Pieces),
    Unpack(Pieces),
    Show(Pieces),
}

impl Program {
    // The filter that it runs, or the choice by which it shows.
    pub(crate) fn filter(self) -> Result<Filter, Pieces>
        ensures { result ≡ filter_by self }
    {
        match self {
            Program::Listing => Ok(Filter::Listing),
            Program::Pack(pieces) => Ok(Filter::Pack(pieces)),
            Program::Unpack(pieces) => Ok(Filter::Unpack(pieces)),
            Program::Show(pieces) => Err(pieces),
        }
    }

    // How many rows or records stand whole in what it puts out. What waits starts with a row or a record, so those that are whole in each
    // write add up.
    pub(crate) fn whole_in(self, put: &[u8]) -> u64
        ensures { WholeIn self put.now result }
    {
        match self.filter() {
            Ok(filter) => whole_in(filter, put) as u64,
            Err(_) => rows_in(put),
        }
    }

    pub(crate) fn name(self) -> &'static [u8] {
        match self {
            Program::Listing => b"listing",
            Program::Pack(_) => b"pack",
            Program::Unpack(_) => b"unpack",
            Program::Show(_) => b"show",
        }
    }

    // What it puts out.
    pub(crate) fn units(self) -> &'static [u8] {
        match self {
            Program::Pack(_) => b"records",
            _ => b"rows",
        }
    }

    pub(crate) fn usage(self) -> &'static [u8] {
        match self {
            Program::Listing => b"usage: listing < LINES\n",
            Program::Pack(_) => b"usage: pack [lenient] < LINES-AND-RECORDS > RECORDS\n",
            Program::Unpack(_) => b"usage: unpack [lenient] < LINES-AND-RECORDS\n",
            Program::Show(_) => b"usage: show BOOK [lenient] < LINES-AND-RECORDS\n",
        }
    }
}
