// Fields of tag, length and body: a tag byte, a two-byte length (low byte first), and as many bytes of body.
//
//     field_at    what stands at a place of a text: a field, the end, or a field that does not fit
//     byte_at, two_at, four_at, eight_at    the number that one, two, four or eight bytes make, low byte first
//
// All are total: they take any text and any place.
//
// `byte_at` is text's `byte_at` too: this crate stands on nothing, and it is one line.
#![tactic(auto)]

ghost use Rattle.std.specs.Prelude.{◌≡◌, ◌<◌, ◌≤◌, get_or};
ghost use Rattle.tlv.specs.Number.{Read};
ghost use Rattle.tlv.specs.Reading.{field_at};

// What stands at a place of a text.
#[derive(Clone, Copy, Debug, PartialEq, Eq, Hash)]
pub enum Step {
    // A whole field: its tag, where its body starts, and the place after its body.
    Field { tag: u8, from: usize, to: usize },
    // One or two bytes are left: no room for tag and length.
    Stray,
    // The body runs past the end.
    Overrun,
    // The place is the end, or past it.
    End,
}

// What stands at `at`. Stray and Overrun are the two ways to number 31.
pub fn field_at(s: &[u8], at: usize) -> Step
    ensures { result ≡ field_at s.now at }
{
    if s.len() <= at {
        return Step::End;
    }
    if s.len() - at < 3 {
        return Step::Stray;
    }
    let from = at + 3;
    let size = two_at(s, at + 1) as usize;
    if s.len() - from < size {
        return Step::Overrun;
    }
    let tag = s[at];
    let to = from + size;
    Step::Field { tag, from, to }
}

// The byte at `i`, and 0 past the end.
pub fn byte_at(s: &[u8], i: usize) -> u8
    ensures { (result ≡ get_or s.now i 0) × (result < 256) }
{
    s.get(i).copied().unwrap_or(0)
}

// The number that the two bytes from `i` on make, low byte first; a byte past the end counts as 0.
pub fn two_at(s: &[u8], i: usize) -> u16
    ensures { Read 2 s.now i result }
{
    number_at::<2>(s, i) as u16
}

// The same of four bytes.
pub fn four_at(s: &[u8], i: usize) -> u32
    ensures { Read 4 s.now i result }
{
    number_at::<4>(s, i) as u32
}

// The same of eight bytes.
pub fn eight_at(s: &[u8], i: usize) -> u64
    ensures { Read 8 s.now i result }
{
    number_at::<8>(s, i)
}

// The same of `N` bytes, at most eight.
fn number_at<const N: usize>(s: &[u8], i: usize) -> u64
    requires { N ≤ 8 }
    ensures { Read N s.now i result }
{
    if s.len() <= i {
        return 0;
    }
    let mut n: u64 = 0;
    for k in (0..N).rev() {
        n = 256 * n + u64::from(byte_at(s, i + k));
    }
    n
}
