// Bytes as one number, the first byte lowest: the compiler makes the sums one load.
// Right because a number below 256^n has one row of n digits to base 256, so equal numbers are equal bytes.
ghost use Rattle.std.specs.Prelude.{◌≡◌, ◌≤◌, ◌<◌, ◌+◌, length};
ghost use Rattle.text.specs.Word.{Word};

// The eight bytes from a place on.
pub fn eight(s: &[u8], i: usize) -> u64
    requires { i + 8 ≤ length s.now }
    ensures { Word 8 s.now i result }
{
    word::<8>(s, i)
}

// The bytes up to the text's end, fewer than eight; those that are missing count as 0.
pub fn few(s: &[u8], i: usize) -> u64
    requires { (i ≤ length s.now) × (length s.now < i + 8) }
    ensures { Word 8 s.now i result }
{
    let mut w: u64 = 0;
    for j in (i..s.len()).rev() {
        w = 0x100 * w + u64::from(s[j]);
    }
    w
}

// The two bytes from a place on.
pub fn two(s: &[u8], i: usize) -> u64
    requires { i + 2 ≤ length s.now }
    ensures { (Word 2 s.now i result) × (result < 65536) }
{
    word::<2>(s, i)
}

// The `N` bytes from a place on, at most eight.
fn word<const N: usize>(s: &[u8], i: usize) -> u64
    requires { (N ≤ 8) × (i + N ≤ length s.now) }
    ensures { Word N s.now i result }
{
    let mut w: u64 = 0;
    for k in (0..N).rev() {
        w = 0x100 * w + u64::from(s[i + k]);
    }
    w
}
