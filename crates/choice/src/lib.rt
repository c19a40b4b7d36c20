// The choice that a program is told on its command line: strict where nothing is said, lenient by the word. Promised are what a word says, that no word says
// strict, and that strict is the answer where there is no word. Which words there are the system says; that they are the ones read is run.
#![tactic(auto)]

ghost use Rattle.std.specs.Prelude.{◌≡◌};
ghost use Rattle.choice.specs.Words.{asked_by, NotStrict, StrictByNone};

use scan::Pieces;
use std::env::{Env, FillError};

// What the arguments behind the first so many say, the program's name counted: nothing more is strict, `lenient` alone is lenient.
pub fn ask_choice<E: Env>(env: &E, before: usize) -> Option<Pieces> {
    ask_among(env, arg_count(env), before)
}

// How many arguments there are, the program's name counted. An argument is its bytes, whether they are text or not.
pub fn arg_count<E: Env>(env: &E) -> usize {
    let mut word = [0u8; 4096];
    for i in 0..usize::MAX {
        if let Err(FillError::NotPresent) = env.arg(i, &mut word) {
            return i;
        }
    }
    usize::MAX
}

fn ask_among<E: Env>(env: &E, count: usize, before: usize) -> Option<Pieces>
    ensures { StrictByNone count before result }
{
    match count.checked_sub(before) {
        Some(0) => Some(Pieces::Strict),
        Some(1) => choice_at(env, before),
        _ => None,
    }
}

// An argument that is longer than the buffer is no word of ours.
fn choice_at<E: Env>(env: &E, place: usize) -> Option<Pieces>
    ensures { NotStrict result }
{
    let mut word = [0u8; 4096];
    let n = env.arg(place, &mut word).ok()?;
    choice_of(&word[..n])
}

#[tactic(auto, unfolding(crate::specs::Words::asked_by))]
fn choice_of(word: &[u8]) -> Option<Pieces>
    ensures { result ≡ asked_by word.now }
{
    (word == b"lenient".as_slice()).then_some(Pieces::Lenient)
}
