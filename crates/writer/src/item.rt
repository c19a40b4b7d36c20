// The rows of the record, from the entry, and its size.
ghost use Rattle.std.specs.Prelude.{◌≡◌, ◌≤◌, ◌<◌, length, map, None, Some};
ghost use Rattle.std.specs.Option.{MatchOption};
ghost use Rattle.entry.specs.Entry.{value_of};
ghost use Rattle.record.specs.Rule.{bytes_of};
ghost use Rattle.record.specs.Grammar.{required, optional, rows_of, dwords_bytes};
ghost use Rattle.writer.specs.Item.{body_of, row_of, record_size, optional_size};

use entry::Entry;
use record::rule::Width;

// What a field's body is made from.
#[derive(Clone, Copy)]
pub enum Item<'a> {
    // Bytes as they are.
    Text(&'a [u8]),
    // A number of a width, low byte first.
    Number(Width, u64),
    // Dwords, 4 bytes each.
    Dwords(&'a [u32]),
}

impl<'a> Item<'a> {
    // How many bytes the body takes.
    #[tactic(auto, using(tlv::proofs::Numbers::number_bytes_length, record::proofs::Bodies::dwords_bytes_length))]
    pub(crate) fn size(self) -> usize
        requires { length (body_of self) < 65536 }
        ensures { result ≡ length (body_of self.entry) }
    {
        match self {
            Item::Text(s) => s.len(),
            Item::Number(width, _) => width.bytes(),
            Item::Dwords(dwords) => 4 * dwords.len(),
        }
    }
}

// A tag, and its body where the field is there.
#[derive(Clone, Copy)]
pub struct Row<'a> {
    pub tag: u8,
    pub item: Option<Item<'a>>,
}

// The rows of an entry, whose task and function lie in the text and whose dwords are the first of the dwords.
pub(crate) fn rows_of<'a>(text: &'a [u8], e: Entry, dwords: &'a [u32]) -> [Row<'a>; 19]
    ensures { map row_of result ≡ rows_of (value_of e text.now dwords.now) }
{
    [
        bytes(0x01, e.task(text)),
        number(0x02, Width::Four, Some(e.pid.into())),
        number(0x03, Width::Two, Some(e.cpu.into())),
        number(0x04, Width::Eight, Some(e.seconds)),
        number(0x05, Width::Eight, Some(e.microseconds)),
        bytes(0x06, e.function(text)),
        number(0x07, Width::One, Some(e.kind.into())),
        number(0x08, Width::Two, Some(e.size.into())),
        number(0x09, Width::One, Some(e.dropped.into())),
        number(0x0A, Width::Four, Some(e.domain.into())),
        number(0x0B, Width::Eight, Some(e.route)),
        number(0x0C, Width::Two, wide(e.offset)),
        number(0x0D, Width::One, wide(e.code)),
        number(0x0E, Width::Two, wide(e.len)),
        number(0x0F, Width::One, wide(e.port)),
        number(0x10, Width::One, wide(e.config)),
        number(0x11, Width::One, wide(e.seq)),
        number(0x12, Width::One, wide(e.unplug)),
        words(0x13, e.data(dwords)),
    ]
}

fn bytes<'a>(tag: u8, s: &'a [u8]) -> Row<'a>
    ensures { row_of result ≡ required tag s.now }
{
    Row {
        tag,
        item: Some(Item::Text(s)),
    }
}

fn words<'a>(tag: u8, dwords: &'a [u32]) -> Row<'a>
    ensures { row_of result ≡ required tag (dwords_bytes dwords.now) }
{
    Row {
        tag,
        item: Some(Item::Dwords(dwords)),
    }
}

// A number that is there exactly when the entry has it.
fn number<'a>(tag: u8, width: Width, n: Option<u64>) -> Row<'a>
    ensures { row_of result ≡ optional tag (bytes_of width) n }
{
    Row {
        tag,
        item: n.map(|n| Item::Number(width, n)),
    }
}

fn wide<T: Into<u64>>(n: Option<T>) -> Option<u64>
    ensures { MatchOption n (result ≡ None) (λ x. MatchOption result ⊥ (λ y. T.converts x y)) }
{
    n.map(T::into)
}

// The size of the record of an entry whose parts are not too long.
#[tactic(auto, unfolding(crate::specs::Item::record_size))]
pub fn record_size(e: Entry) -> usize
    requires { (e.task_len ≤ 4096) × (e.function_len ≤ 4096) × (e.dwords ≤ 256) }
    ensures { result ≡ record_size e }
{
    let words = optional_size(e.offset, 5) + optional_size(e.len, 5);
    let first = optional_size(e.code, 4) + optional_size(e.port, 4) + optional_size(e.config, 4);
    let last = optional_size(e.seq, 4) + optional_size(e.unplug, 4);
    77 + e.task_len + e.function_len + 4 * e.dwords + words + first + last
}

// The bytes of an optional field, of a size where it is there.
fn optional_size<T: Drop>(n: Option<T>, size: usize) -> usize
    ensures { (result ≡ optional_size n size) × (result ≤ size) }
{
    if n.is_some() { size } else { 0 }
}
