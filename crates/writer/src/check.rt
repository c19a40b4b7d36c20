// Number 37: the ranges of the record, and parts inside what is lent.
ghost use Rattle.std.specs.Prelude.{◌≡◌};
ghost use Rattle.writer.specs.Ranges.{writable, fits_texts, fits_numbers};

use entry::Entry;
use record::rule::{is_function, is_task};

// Does the entry keep the record's ranges, and do its parts lie in what is lent?
#[tactic(auto, unfolding(crate::specs::Ranges::writable))]
pub fn is_writable(text: &[u8], e: Entry, dwords: &[u32]) -> bool
    ensures { result ≡ writable text.now e dwords.now }
{
    fits_texts(text, e) && fits_numbers(e) && e.dwords <= 256 && e.dwords <= dwords.len()
}

// Task and function, each by itself and both together. A part that lies outside the text is empty, which neither may be.
#[tactic(auto, unfolding(crate::specs::Ranges::fits_texts))]
fn fits_texts(text: &[u8], e: Entry) -> bool
    ensures { result ≡ fits_texts text.now e }
{
    is_task(e.task(text))
        && is_function(e.function(text))
        && e.task_len.saturating_add(e.function_len) <= 4096
}

// The ranges that are narrower than the entry's own.
#[tactic(auto, unfolding(crate::specs::Ranges::fits_numbers))]
fn fits_numbers(e: Entry) -> bool
    ensures { result ≡ fits_numbers e }
{
    e.cpu <= 999
        && e.seconds <= 0x7fff_ffff_ffff_ffff
        && e.microseconds <= 0x7fff_ffff_ffff_ffff
        && e.kind <= 12
}
