// What refuses a packet before any question of it.
ghost use Rattle.std.specs.Prelude.{◌≡◌};
ghost use Rattle.refusal.specs.Told.{told};
ghost use Rattle.questions.specs.Questions.{passed_of};

use packet::numbers::open;
use refusal::Refusal;

// Numbers 20 to 25: with a place for each dword, 26 does not come.
pub fn pass(kind: u8, book: &[u8], dwords: &[u32]) -> Result<(), Refusal>
    ensures { told result ≡ passed_of kind book.now dwords.now }
{
    book::check(book)?;
    open(kind, book, dwords.len(), dwords.len())?;
    Ok(())
}
