// Sixteen bytes at a time: loops of fixed length with no way out, which the compiler makes one vector compare and a choice without a branch.
// Right because each looks at all sixteen bytes, whatever they are, and keeps what a plain walk of them would answer.
ghost use Rattle.std.specs.Prelude.{◌≡◌, ◌≤◌, ◌+◌, ltb, length};
ghost use Rattle.text.specs.Place.{is_at, first_of, last_place};
ghost use Rattle.text.specs.Run.{behind};

// Loops and not `contains` or `position`: those leave at the first hit, and a way out is what makes a branch of every byte.

// So many bytes are a block.
pub const BLOCK: usize = 16;

// Is one of the sixteen bytes from a place on b?
pub fn holds(s: &[u8], at: usize, b: u8) -> bool
    requires { at + 16 ≤ length s.now }
    ensures { result ≡ ltb (first_of (is_at b s.now) 16 at) (at + 16) }
{
    let mut any = false;
    for k in 0..BLOCK {
        if s[at + k] == b {
            any = true;
        }
    }
    any
}

// The first place of b among the sixteen bytes from a place on, counted from there; 16 where b is none of them. Looked at from the last to the first,
// so the first stays: no branch hangs on a byte.
pub fn first_of(s: &[u8], at: usize, b: u8) -> usize
    requires { at + 16 ≤ length s.now }
    ensures { at + result ≡ first_of (is_at b s.now) 16 at }
{
    let mut found = BLOCK;
    for k in 0..BLOCK {
        let j = BLOCK - 1 - k;
        if s[at + j] == b {
            found = j;
        }
    }
    found
}

// Behind the last place of b among the sixteen bytes from a place on, counted from there; 0 where b is none of them.
pub fn last_of(s: &[u8], at: usize, b: u8) -> usize
    requires { at + 16 ≤ length s.now }
    ensures { result ≡ behind (last_place (λ k. is_at b s.now (at + k)) 16) }
{
    let mut found = 0;
    for k in 0..BLOCK {
        if s[at + k] == b {
            found = k + 1;
        }
    }
    found
}
