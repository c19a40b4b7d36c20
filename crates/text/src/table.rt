// One table for digits of either base and word bytes: a digit's entry is its value, another word byte's is 128, any other byte's is more, so each of
// these classes is one comparison.
// Right because the entries are computed from the classes, byte by byte. Whoever needs the table writes it out once and lends it.
ghost use Rattle.std.specs.Prelude.{◌≡◌, get_or};
ghost use Rattle.text.specs.Class.{is_word, no_word};
ghost use Rattle.text.specs.Run.{EndsAt};
ghost use Rattle.text.specs.Table.{table};

use crate::run::end_of;

// A word byte's entry is at most this.
const WORD: u8 = 128;

// Where the longest run of word bytes from a place ends.
pub fn word_end(s: &[u8], t: &[u8; 256], from: usize) -> usize
    requires { t.now ≡ table }
    ensures { EndsAt is_word s.now from result }
{
    end_of(s, from, |b| is_word(t, b))
}

// Does a word byte stand at the place?
pub fn is_word_at(s: &[u8], t: &[u8; 256], i: usize) -> bool
    requires { t.now ≡ table }
    ensures { result ≡ is_word (get_or s.now i 0) }
{
    i < s.len() && is_word(t, s[i])
}

// The first place of a word byte from a place on, else the text's end: where the longest run of other bytes ends.
pub fn word_from(s: &[u8], t: &[u8; 256], from: usize) -> usize
    requires { t.now ≡ table }
    ensures { EndsAt no_word s.now from result }
{
    end_of(s, from, |b| !is_word(t, b))
}

// Is the byte a word byte?
#[inline]
fn is_word(t: &[u8; 256], b: u8) -> bool
    requires { t.now ≡ table }
    ensures { result ≡ is_word b }
{
    t[b as usize] <= WORD
}
