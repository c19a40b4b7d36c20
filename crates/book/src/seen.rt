// Which numbers of 16 bits were met: one bit each. Kept two functions on one array: a struct around it would say no more.
ghost use Rattle.std.specs.Prelude.{◌≡◌};
ghost use Rattle.book.specs.Seen.{is_marked, marked};

pub const WORDS: usize = 1024;

// Was the number met?
pub fn is_marked(seen: &[u64; WORDS], n: u16) -> bool
    ensures { result ≡ is_marked seen.now n }
{
    (seen[(n / 64) as usize] >> (n % 64)) % 2 == 1
}

// The number is met.
pub fn mark(seen: &mut [u64; WORDS], n: u16)
    ensures { seen.new ≡ marked seen.old n }
{
    let word = (n / 64) as usize;
    seen[word] = seen[word] | (1 << (n % 64));
}
