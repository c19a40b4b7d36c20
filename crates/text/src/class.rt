// The byte classes of the line grammar.
ghost use Rattle.std.specs.Prelude.{◌≡◌};
ghost use Rattle.text.specs.Class.{is_blank, is_digit, is_word, in_class};

// What a run is made of. The two negated classes end a run at one byte: the blank that ends a header's first run, and the
// bracket that ends a bracketed value. They are for the definitions; code finds that byte by `until` and `behind_last`.
#[derive(Clone, Copy, Debug, PartialEq, Eq, Hash)]
pub enum Class {
    Blank,
    Digit,
    Word,
    NotSpace,
    NotClose,
}

impl Class {
    // Is the byte in the class?
    #[tactic(auto, unfolding(crate::specs::Class::in_class))]
    pub fn has(self, b: u8) -> bool
        ensures { result ≡ in_class self b }
    {
        match self {
            Class::Blank => is_blank(b),
            Class::Digit => is_digit(b),
            Class::Word => is_word(b),
            Class::NotSpace => b != b' ',
            Class::NotClose => b != b']',
        }
    }
}

// Bytes 9 to 13 and 32.
#[tactic(auto, unfolding(crate::specs::Class::is_blank, crate::specs::Class::between))]
pub fn is_blank(b: u8) -> bool
    ensures { result ≡ is_blank b }
{
    b == b' ' || (9..=13).contains(&b)
}

#[tactic(auto, unfolding(crate::specs::Class::is_digit, crate::specs::Class::between))]
pub fn is_digit(b: u8) -> bool
    ensures { result ≡ is_digit b }
{
    b.is_ascii_digit()
}

// A letter, a digit or the underscore.
#[tactic(auto, unfolding(crate::specs::Class::is_word, crate::specs::Class::is_letter, crate::specs::Class::is_digit, crate::specs::Class::between))]
pub fn is_word(b: u8) -> bool
    ensures { result ≡ is_word b }
{
    b.is_ascii_alphanumeric() || b == b'_'
}
