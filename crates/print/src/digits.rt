// The decimal digits of a number.
ghost use Rattle.std.specs.Prelude.{◌≡◌, ◌<◌, drop};
ghost use Rattle.print.specs.Put.{Digits as DigitsOf};

// The digits stand at the end of the bytes, from a place on.
#[derive(Clone, Copy)]
pub struct Digits {
    pub bytes: [u8; 20],
    pub from: usize,
    ghost inside: { from < 20 },
}

impl Digits {
    pub fn text(&self) -> &[u8]
        ensures { result.now ≡ drop self.now.from self.now.bytes }
    {
        &self.bytes[self.from..]
    }
}

// From the last digit to the first. The place is counted by hand, as where it stops is half of the answer.
pub fn digits_of(n: u64) -> Digits
    ensures { DigitsOf n result.bytes result.from }
{
    let mut bytes = [b'0'; 20];
    let mut rest = n;
    let mut from = 19;
    while 10 <= rest {
        bytes[from] = b'0' + (rest % 10) as u8;
        rest /= 10;
        from -= 1;
    }
    bytes[from] = b'0' + rest as u8;
    Digits { bytes, from }
}
