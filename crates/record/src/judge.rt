// Numbers 30 to 34: the frame, then field by field, then the required tags.
ghost use Rattle.std.specs.Prelude.{◌≡◌, ◌≤◌, length};
ghost use Rattle.text.specs.Told.{number_in};
ghost use Rattle.refusal.specs.Told.{told};
ghost use Rattle.record.specs.Judging.{refusal_of, framed, judged, judge_field, task_size, has_required};

use crate::find::is_there;
use crate::rule::Rule;
use refusal::Refusal;
use tlv::{Step, field_at};

// Tags 01 to 0B and 13 are required.
const REQUIRED: [u8; 12] = [1, 2, 3, 4, 5, 6, 7, 8, 9, 0x0A, 0x0B, 0x13];

// The number of the first rule that the record breaks.
#[tactic(auto, using(refusal::proofs::Told::number_some), unfolding(crate::specs::Judging::refusal_of))]
pub fn judge(text: &[u8]) -> Result<(), Refusal>
    ensures { number_in (told result) ≡ refusal_of text.now }
{
    if !is_framed(text) {
        return Err(Refusal::NoRecord);
    }
    judge_fields(text)?;
    if !has_required(text) {
        return Err(Refusal::MissingTag);
    }
    Ok(())
}

// A record is one field of tag A1, with nothing behind it.
#[tactic(auto, unfolding(crate::specs::Judging::framed))]
fn is_framed(text: &[u8]) -> bool
    ensures { result ≡ framed text.now }
{
    matches!(field_at(text, 0), Step::Field { tag: 0xA1, from: _, to } if to == text.len())
}

// Field by field: 31, 32, 34.
#[tactic(auto, using(crate::proofs::Finding::field_moves))]
fn judge_fields(text: &[u8]) -> Result<(), Refusal>
    ensures { number_in (told result) ≡ judged text.now 3 0 }
{
    let task = task_size(text);
    let mut at = 3;
    let mut last = 0;
    loop {
        match field_at(text, at) {
            Step::Field { tag, from, to } => {
                judge_field(&text[from..to], tag, last, task)?;
                last = tag;
                at = to;
            }
            Step::Stray | Step::Overrun => return Err(Refusal::Overrun),
            Step::End => return Ok(()),
        }
    }
}

// A field behind the tag `last`, and behind a task of a length: 32, then 34.
#[tactic(auto, unfolding(crate::specs::Judging::judge_field))]
fn judge_field(body: &[u8], tag: u8, last: u8, task: usize) -> Result<(), Refusal>
    ensures { number_in (told result) ≡ judge_field task tag body.now last }
{
    if tag <= last {
        return Err(Refusal::BadTag);
    }
    let rule = Rule::of(tag).ok_or(Refusal::BadTag)?;
    if !rule.fits(body, task) {
        return Err(Refusal::BadBody);
    }
    Ok(())
}

// The length of the task. Since tags ascend, it is the first field where there is one.
#[tactic(auto, using(crate::proofs::Finding::field_moves), unfolding(crate::specs::Judging::task_size))]
fn task_size(text: &[u8]) -> usize
    ensures { (result ≡ task_size text.now) × (result ≤ length text.now) }
{
    match field_at(text, 3) {
        Step::Field { tag, from, to } if tag == 1 => to - from,
        _ => 0,
    }
}

#[tactic(auto, unfolding(crate::specs::Judging::has_required))]
fn has_required(text: &[u8]) -> bool
    ensures { result ≡ has_required text.now }
{
    REQUIRED.iter().all(|&tag| is_there(text, tag))
}
