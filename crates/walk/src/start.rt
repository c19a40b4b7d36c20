// The word run that starts at a place: where it ends and, where an `=` follows, whose key it is. A key of ours and its `=` are told by one
// comparison of eight bytes. Right because its first two bytes choose a name's row: a name that is not the chosen row's is no row's.
ghost use Rattle.std.specs.Prelude.{◌≡◌, ◌<◌, length};
ghost use Rattle.text.specs.Table.{table};
ghost use Rattle.text.specs.Word.{Word};
ghost use Rattle.walk.specs.Start.{candidate_of, other_start, Started};

use pairs::keys::{
    CONFIG, DATA, DOMAIN, DROPPED, ERROR, Form, LEN, OFFSET, OTHER, PORT, ROUTE, ROWS, SEQ, SIZE,
    TYPE, UNPLUG,
};
use text::number::{MAX_8, MAX_16, MAX_32, MAX_64};
use text::place::byte_at;
use text::table::word_end;
use text::word::{eight, few};

// The row of a word run that no `=` follows.
pub const NO_KEY: usize = ROWS;

// Each key with its `=`, as the number that these bytes make, the first byte lowest.
const TYPE_IS: u64 = 0x3d_6570_7974;

const SIZE_IS: u64 = 0x3d_657a_6973;

const DOMAIN_IS: u64 = 0x3d_6e69_616d_6f64;

const ROUTE_IS: u64 = 0x3d65_7475_6f72;

const DATA_IS: u64 = 0x3d_6174_6164;

const OFFSET_IS: u64 = 0x3d_7465_7366_666f;

const ERROR_IS: u64 = 0x3d72_6f72_7265;

const LEN_IS: u64 = 0x3d6e_656c;

const PORT_IS: u64 = 0x3d_7472_6f70;

const CONFIG_IS: u64 = 0x3d_6769_666e_6f63;

const SEQ_IS: u64 = 0x3d71_6573;

const UNPLUG_IS: u64 = 0x3d_6775_6c70_6e75;

const DROPPED_IS: u64 = 0x3d64_6570_706f_7264;

// So many bytes are compared at once.
const WORD: usize = 8;

// A byte has so many values.
const BYTE: u64 = 0x100;

// A row is chosen by the sum of its name's first two bytes, modulo this.
const CHOICES: u64 = 32;

// The masks of so many bytes of eight.
const FOUR: u64 = 0xffff_ffff;

const FIVE: u64 = 0xff_ffff_ffff;

const SIX: u64 = 0xffff_ffff_ffff;

const SEVEN: u64 = 0xff_ffff_ffff_ffff;

const EIGHT: u64 = 0xffff_ffff_ffff_ffff;

// A word run by its end, where its `=` stands if it is a key; and the key's row and form. A key that is none of ours has the row `OTHER`.
#[derive(Clone, Copy)]
pub struct Start {
    pub row: usize,
    pub form: Form,
    pub end: usize,
}

// A row as it stands in a text: the number that its name and `=` make, their mask, and how many bytes they are.
#[derive(Clone, Copy)]
pub struct Candidate {
    pub want: u64,
    pub mask: u64,
    pub size: usize,
    pub row: usize,
    pub form: Form,
}

// The word run from a place on.
pub fn start_at(s: &[u8], t: &[u8; 256], i: usize) -> Start
    requires { (t.now ≡ table) × (i < length s.now) }
    ensures { Started s.now i result }
{
    if s.len() < i + WORD {
        return start_of(few(s, i), s, t, i);
    }
    start_of(eight(s, i), s, t, i)
}

// The same by the number that the eight bytes from the place on make, of which those behind the text's end are 0. No key has such a byte.
fn start_of(w: u64, s: &[u8], t: &[u8; 256], i: usize) -> Start
    requires { (t.now ≡ table) × (i < length s.now) × Word 8 s.now i w }
    ensures { Started s.now i result }
{
    let c = choose((w % BYTE + w / BYTE % BYTE) % CHOICES);
    if w & c.mask == c.want {
        return Start {
            row: c.row,
            form: c.form,
            end: i + c.size - 1,
        };
    }
    other_start(s, word_end(s, t, i))
}

// The row that a number of a name's first two bytes chooses. The last arm is `type`'s, whose own number is 13, and stands for every number that chooses
// none, where it is compared in vain.
fn choose(chosen: u64) -> Candidate
    ensures { result ≡ candidate_of chosen }
{
    match chosen {
        1 => row_text(ROUTE_IS, SIX, 6, ROUTE, Form::Hex(MAX_64)),
        3 => row_text(UNPLUG_IS, SEVEN, 7, UNPLUG, Form::Hex(MAX_8)),
        5 => row_text(DATA_IS, FIVE, 5, DATA, Form::Dwords),
        17 => row_text(LEN_IS, FOUR, 4, LEN, Form::Decimal(MAX_16)),
        18 => row_text(CONFIG_IS, SEVEN, 7, CONFIG, Form::Hex(MAX_8)),
        19 => row_text(DOMAIN_IS, SEVEN, 7, DOMAIN, Form::Decimal(MAX_32)),
        21 => row_text(OFFSET_IS, SEVEN, 7, OFFSET, Form::Hex(MAX_16)),
        22 => row_text(DROPPED_IS, EIGHT, 8, DROPPED, Form::Decimal(MAX_8)),
        23 => row_text(ERROR_IS, SIX, 6, ERROR, Form::Hex(MAX_8)),
        24 => row_text(SEQ_IS, FOUR, 4, SEQ, Form::Decimal(MAX_8)),
        28 => row_text(SIZE_IS, FIVE, 5, SIZE, Form::Decimal(MAX_16)),
        31 => row_text(PORT_IS, FIVE, 5, PORT, Form::Decimal(MAX_8)),
        _ => row_text(TYPE_IS, FIVE, 5, TYPE, Form::Text),
    }
}

// A row as it stands in a text, field by field.
fn row_text(want: u64, mask: u64, size: usize, row: usize, form: Form) -> Candidate
    ensures { result ≡ record { want = want; mask = mask; size = size; row = row; form = form } }
{
    Candidate {
        want,
        mask,
        size,
        row,
        form,
    }
}

// A word run that ends at m and is no key of ours.
#[tactic(auto, unfolding(crate::specs::Start::other_start, pairs::specs::Table::keys))]
fn other_start(s: &[u8], m: usize) -> Start
    ensures { result ≡ other_start s.now m }
{
    let row = if byte_at(s, m) == b'=' { OTHER } else { NO_KEY };
    Start {
        row,
        form: Form::Text,
        end: m,
    }
}
