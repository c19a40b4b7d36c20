// What the body of each tag must be.
ghost use Rattle.std.specs.Prelude.{◌≡◌};
ghost use Rattle.std.specs.declared.option.Option.TheVariants.{Some};
ghost use Rattle.std.specs.List.{list_all};
ghost use Rattle.tlv.specs.Number.{number};
ghost use Rattle.text.specs.Class.{is_word};
ghost use Rattle.record.specs.Rule.{bytes_of, rule_of, fits_rule, fits_text, is_task_byte};

use text::class::is_word;
use tlv::{byte_at, eight_at, four_at, two_at};

// How many bytes a number has.
#[derive(Clone, Copy, Debug, PartialEq, Eq)]
pub enum Width {
    One = 1,
    Two = 2,
    Four = 4,
    Eight = 8,
}

impl Width {
    pub fn bytes(self) -> usize
        ensures { result ≡ bytes_of self }
    {
        self as usize
    }

    // The number that a text starts with, low byte first; a byte past the end counts as 0.
    #[tactic(auto, using(tlv::proofs::Numbers::number_one))]
    pub fn read(self, s: &[u8]) -> u64
        ensures { result ≡ number (bytes_of self) s.now 0 }
    {
        match self {
            Width::One => byte_at(s, 0) as u64,
            Width::Two => two_at(s, 0) as u64,
            Width::Four => four_at(s, 0) as u64,
            Width::Eight => eight_at(s, 0),
        }
    }
}

#[derive(Clone, Copy, Debug, PartialEq, Eq)]
pub enum Rule {
    // One or more bytes below 128, none 32.
    Task,
    // One or more word bytes, with the task at most 4,096.
    Function,
    // A number of a width, at most a limit.
    Number(Width, u64),
    // 4 bytes a dword, 0 to 256 dwords.
    Dwords,
}

impl Rule {
    // The rule for the body of a tag; none for a tag that no record has.
    #[tactic(auto, using(crate::proofs::Texts::unknown_behind), unfolding(crate::specs::Rule::rule_of))]
    pub fn of(tag: u8) -> Option<Rule>
        ensures { result ≡ rule_of tag }
    {
        match tag {
            0x01 => Some(Rule::Task),
            0x02 => Some(Rule::Number(Width::Four, 0xffff_ffff)),
            0x03 => Some(Rule::Number(Width::Two, 999)),
            0x04 => Some(Rule::Number(Width::Eight, 0x7fff_ffff_ffff_ffff)),
            0x05 => Some(Rule::Number(Width::Eight, 0x7fff_ffff_ffff_ffff)),
            0x06 => Some(Rule::Function),
            0x07 => Some(Rule::Number(Width::One, 12)),
            0x08 => Some(Rule::Number(Width::Two, 0xffff)),
            0x09 => Some(Rule::Number(Width::One, 1)),
            0x0A => Some(Rule::Number(Width::Four, 0xffff_ffff)),
            0x0B => Some(Rule::Number(Width::Eight, 0xffff_ffff_ffff_ffff)),
            0x0C => Some(Rule::Number(Width::Two, 0xffff)),
            0x0D => Some(Rule::Number(Width::One, 0xff)),
            0x0E => Some(Rule::Number(Width::Two, 0xffff)),
            0x0F => Some(Rule::Number(Width::One, 0xff)),
            0x10 => Some(Rule::Number(Width::One, 0xff)),
            0x11 => Some(Rule::Number(Width::One, 0xff)),
            0x12 => Some(Rule::Number(Width::One, 0xff)),
            0x13 => Some(Rule::Dwords),
            0x00 | 0x14..=0xff => None,
        }
    }

    // Is the body as the rule asks, behind a task of a length?
    #[tactic(auto, unfolding(crate::specs::Rule::fits_rule, crate::specs::Rule::fits_number, crate::specs::Rule::fits_dwords))]
    pub fn fits(self, body: &[u8], task: usize) -> bool
        ensures { result ≡ fits_rule (Some self) task body.now }
    {
        match self {
            Rule::Task => is_task(body),
            Rule::Function => task.saturating_add(body.len()) <= 4096 && is_function(body),
            Rule::Number(width, limit) => body.len() == width.bytes() && width.read(body) <= limit,
            Rule::Dwords => body.len() % 4 == 0 && body.len() <= 1024,
        }
    }
}

// Is the body one or more bytes below 128, and none 32?
#[tactic(auto, unfolding(crate::specs::Rule::fits_text))]
pub fn is_task(body: &[u8]) -> bool
    ensures { result ≡ fits_text is_task_byte body.now }
{
    !body.is_empty() && are_task_bytes(body)
}

#[tactic(auto, unfolding(crate::specs::Rule::is_task_byte))]
fn are_task_bytes(s: &[u8]) -> bool
    ensures { result ≡ list_all is_task_byte s.now }
{
    s.iter().all(|&b| b != b' ' && b < 128)
}

// Is the body one or more word bytes, and nothing else?
#[tactic(auto, unfolding(crate::specs::Rule::fits_text))]
pub fn is_function(body: &[u8]) -> bool
    ensures { result ≡ fits_text is_word body.now }
{
    !body.is_empty() && are_word_bytes(body)
}

fn are_word_bytes(s: &[u8]) -> bool
    ensures { result ≡ list_all is_word s.now }
{
    s.iter().all(|&b| is_word(b))
}
