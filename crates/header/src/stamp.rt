// The timestamp: two numbers, of which the second counts as microseconds as it stands.
ghost use Rattle.std.specs.Prelude.{◌≡◌, get_or};
ghost use Rattle.header.specs.Stamp.{StampAt, PartsBefore, read_stamp, stamp_of};

use text::class::{Class, is_blank};
use text::number::{MAX_63, decimal};
use text::place::{byte_at, byte_before, first};
use text::run::run_start;

// A moment as a header prints it.
#[derive(Clone, Copy)]
pub struct Stamp {
    pub seconds: u64,
    pub microseconds: u64,
}

// Where the two digit runs of a timestamp stand: the first from `from` up to `dot`, the second behind it.
#[derive(Clone, Copy)]
struct Parts {
    from: usize,
    dot: usize,
}

// The first whole digit run that a dot, a digit run, a colon and a blank follow, and what both runs read as. Colons are rarer than digits,
// so the walk goes from colon to colon and looks back from each: the first colon that ends a timestamp ends the first one.
pub fn parse_timestamp(h: &[u8]) -> Option<Stamp>
    ensures { result ≡ stamp_of h.now }
{
    let mut i = 0;
    while let Some(c) = first(h, b':', i) {
        if let Some(parts) = parts_before(h, c) {
            return read_stamp(h, parts, c);
        }
        i = c + 1;
    }
    None
}

// The parts of the timestamp that this colon ends. The blank is asked for first, because most other colons have none behind them.
fn parts_before(h: &[u8], c: usize) -> Option<Parts>
    requires { get_or h.now c 0 ≡ 58 }
    ensures { PartsBefore h.now c result }
{
    if !is_blank(byte_at(h, c + 1)) {
        return None;
    }
    let k = run_start(&h[..c], Class::Digit);
    if k == c {
        return None;
    }
    if byte_before(h, k) != b'.' {
        return None;
    }
    let dot = k - 1;
    let from = run_start(&h[..dot], Class::Digit);
    if from == dot {
        return None;
    }
    Some(Parts { from, dot })
}

fn read_stamp(h: &[u8], parts: Parts, colon: usize) -> Option<Stamp>
    requires { StampAt h.now parts.from parts.dot colon }
    ensures { result ≡ read_stamp h.now parts.from }
{
    let seconds = decimal(&h[parts.from..parts.dot], MAX_63)?;
    let microseconds = decimal(&h[parts.dot + 1..colon], MAX_63)?;
    Some(Stamp {
        seconds,
        microseconds,
    })
}
