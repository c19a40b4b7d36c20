// Names, and the fields that stand inside another field's body.
ghost use Rattle.std.specs.Prelude.{◌+◌, ◌≡◌};
ghost use Rattle.text.specs.Part.{OwnText};
ghost use Rattle.book.specs.Search.{body_at, after};
ghost use Rattle.book.specs.Reading.{is_name};

use tlv::Step;

// Is the text 1 to 255 bytes below 128?
#[tactic(auto, unfolding(crate::specs::Reading::is_name))]
pub fn is_name(s: &[u8]) -> bool
    ensures { result ≡ is_name s.now }
{
    1 <= s.len() && s.len() <= 255 && s.is_ascii()
}

// The body of the field of that tag at the place: the caller's own bytes behind tag and length. Where no such field stands there, or its body has no
// byte, an empty part at the start.
pub fn body_at(s: &[u8], tag: u8, at: usize) -> &[u8]
    ensures { OwnText s.entry (at + 3) (body_at tag s.now at) result }
{
    match tlv::field_at(s, at) {
        Step::Field { tag: t, from, to } if t == tag && from < to => &s[from..to],
        _ => &s[..0],
    }
}

// The place behind the field of that tag at the place, the place itself where none stands there.
pub fn after(s: &[u8], tag: u8, at: usize) -> usize
    ensures { result ≡ after tag s.now at }
{
    match tlv::field_at(s, at) {
        Step::Field { tag: t, to, .. } if t == tag => to,
        _ => at,
    }
}
