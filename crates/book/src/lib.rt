// The book of field descriptions: the check of its grammar, and the finders.
//
//     check        accepted, or number 20
//     find::..     tables, entries, ranges and values by their places in the book
//
// Every public call takes any bytes, checked or not; `find::inner`, a helper for the walk over a table, asks for a place inside them.
#![tactic(auto)]

mod field;
pub mod find;
mod grammar;
mod seek;
mod seen;

ghost use Rattle.std.specs.Prelude.{◌≡◌};
ghost use Rattle.refusal.specs.Told.{told};
ghost use Rattle.book.specs.Reading.{check_of};

use crate::grammar::tables;
use refusal::Refusal;

// The four dwords of a UUID, in the order of the book and of a packet.
#[derive(Clone, Copy, Debug, PartialEq, Eq, Hash)]
pub struct Uuid {
    pub first: u32,
    pub second: u32,
    pub third: u32,
    pub fourth: u32,
}

impl Uuid {
    // The all-zero UUID: its table is the header table.
    pub const ZERO: Uuid = Uuid {
        first: 0,
        second: 0,
        third: 0,
        fourth: 0,
    };
}

// Does the book belong to the grammar? If not, number 20.
#[tactic(auto, unfolding(crate::specs::Reading::check_of))]
pub fn check(book: &[u8]) -> Result<(), Refusal>
    ensures { told result ≡ check_of book.now }
{
    if book.len() <= 65_535 && tables(book) {
        Ok(())
    } else {
        Err(Refusal::BadBook)
    }
}
