// The last pair of each of the thirteen keys, from one walk.
ghost use Rattle.std.specs.Prelude.{◌≡◌, true, suc, ◌≤◌, ◌<◌, None, length, get_or};
ghost use Rattle.text.specs.Class.{is_word, no_word, in_class};
ghost use Rattle.text.specs.Run.{EndsAt, run_start};
ghost use Rattle.text.specs.Table.{table};
ghost use Rattle.text.specs.declared.class.Class.TheVariants.{NotClose};
ghost use Rattle.walk.specs.Kept.{LastKept, Step, number_in, part_in};

use crate::start::{NO_KEY, start_at};
use crate::value::{Kept, value_at};
use pairs::dwords::COMMA_SPACE;
use pairs::keys::ROWS;
use pairs::pair::Span;
use text::run::behind_last;
use text::table::{is_word_at, word_from};
use text::word::two;

// What the last pair of each key says, by the key's row; the row behind the table takes those of every other key.
#[derive(Clone, Copy)]
pub struct LastPairs {
    pub rows: [Option<Kept>; ROWS],
}

impl LastPairs {
    // The number that a row's key says.
    #[tactic(auto, unfolding(crate::specs::Kept::number_in))]
    pub fn number(&self, row: usize) -> Option<u64>
        requires { row < 14 }
        ensures { result ≡ number_in (get_or self.now.rows row None) }
    {
        match self.rows[row] {
            Some(Kept::Number(v)) => Some(v),
            _ => None,
        }
    }

    // Where the value of a row's key stands, if it is a text or dwords.
    #[tactic(auto, unfolding(crate::specs::Kept::part_in))]
    pub fn part(&self, row: usize) -> Option<Span>
        requires { row < 14 }
        ensures { result ≡ part_in (get_or self.now.rows row None) }
    {
        match self.rows[row] {
            Some(Kept::Part(span)) => Some(span),
            _ => None,
        }
    }

    // The pair whose key starts at i, if one does, takes its key's row: behind it the walk goes on, else behind the word run and the byte that ends it,
    // since a try that fails fails from every byte of its word run.
    fn take(&mut self, s: &[u8], t: &[u8; 256], i: usize, tail: usize) -> usize
        requires { (t.now ≡ table) × (i < length s.now) × (is_word (get_or s.now i 0) ≡ true) × (tail ≡ run_start (in_class NotClose) s.now) }
        ensures { Step s.now i self.old.rows self.new.rows result }
    {
        let start = start_at(s, t, i);
        let v = start.end + 1;
        if start.row == NO_KEY {
            return v;
        }
        let Some(value) = value_at(s, t, v, start.form, tail) else {
            return v;
        };
        self.rows[start.row] = value.kept;
        value.end
    }
}

// Each pair takes the place of its key's row, so the last one stays.
pub fn last_pairs(s: &[u8], t: &[u8; 256]) -> LastPairs
    requires { t.now ≡ table }
    ensures { LastKept s.now result }
{
    let tail = behind_last(s, b']');
    let mut last = LastPairs { rows: [None; ROWS] };
    let mut at = 0;
    loop {
        let i = next_word(s, t, at);
        if s.len() <= i {
            return last;
        }
        at = last.take(s, t, i, tail);
    }
}

// The next word byte, tried first behind a comma and a space, which part the pairs that the kernel prints. Right because neither is of a word.
fn next_word(s: &[u8], t: &[u8; 256], from: usize) -> usize
    requires { (t.now ≡ table) × (from ≤ suc (length s.now)) }
    ensures { EndsAt no_word s.now from result }
{
    if from + 2 < s.len() && two(s, from) == COMMA_SPACE && is_word_at(s, t, from + 2) {
        return from + 2;
    }
    word_from(s, t, from)
}
