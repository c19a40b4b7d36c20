// The open unit with the bytes that a part has of it.
ghost use Rattle.std.specs.Prelude.{◌≡◌, true, false, ◌≤◌, ◌<◌, length};
ghost use Rattle.units.specs.Units.{marked};
ghost use Rattle.units.specs.Feeding.{Ready, BodyFed, FedFor, LineEnds, first_of, wants_at, ends_at, end_in};

use crate::keeping::stated;
use crate::{Fed, Framing, State, Unit};
use print::put::put;
use text::place::first;

// A record's first three bytes, and on. Asked for: that the unit is a record of which fewer than three are held, which
// `feed_on` has seen.
pub fn head_on(framing: Framing, part: &[u8], from: usize, rest: &mut [u8], held: usize) -> Fed
    requires { (from ≤ length part.now) × (length rest.old ≡ 8192) × (held < 3) × (marked framing (first_of part.now from rest.old held) ≡ true) }
    ensures { BodyFed framing part.now from rest.old held 0 rest.new result }
{
    let more = (part.len() - from).min(3 - held);
    let to = from + more;
    let now = put(rest, held, &part[from..to]);
    if now < 3 {
        return wants(to, now, 0);
    }
    body_on(framing, part, to, rest, now, 0)
}

// A record from its third byte on, up to the length that it says. Asked for: that its first three bytes are there.
pub fn body_on(
    framing: Framing,
    part: &[u8],
    from: usize,
    rest: &mut [u8],
    held: usize,
    passed: usize,
) -> Fed
    requires { (from ≤ length part.now) × (Ready framing rest.old held passed) }
    ensures { BodyFed framing part.now from rest.old held passed rest.new result }
{
    let size = stated(rest);
    if 5227 < size {
        let more = (part.len() - from).min(size - 3 - passed);
        let now = passed + more;
        if 3 + now < size {
            return wants(from + more, 3, now);
        }
        return ends(from + more, Unit::Long);
    }
    let more = (part.len() - from).min(size - held);
    let to = from + more;
    let now = put(rest, held, &part[from..to]);
    if now < size {
        return wants(to, now, 0);
    }
    ends(to, Unit::Text(now))
}

// A line up to its newline; 4,097 bytes of it are kept. Asked for: that the unit is a line of which at most 4,097 are held.
pub fn line_on(framing: Framing, part: &[u8], from: usize, rest: &mut [u8], held: usize) -> Fed
    requires { (from ≤ length part.now) × (length rest.old ≡ 8192) × (held ≤ 4097) × (marked framing (first_of part.now from rest.old held) ≡ false) }
    ensures { FedFor framing part.now from rest.old held 0 rest.new result }
{
    let end = line_end(part, from);
    let at = end.unwrap_or(part.len());
    let count = (at - from).min(4097 - held);
    let to = from + count;
    let now = put(rest, held, &part[from..to]);
    if end.is_some() {
        return ends(at, Unit::Text(now));
    }
    wants(at, now, 0)
}

// Behind the first newline.
pub fn line_end(part: &[u8], from: usize) -> Option<usize>
    requires { from ≤ length part.now }
    ensures { LineEnds part.now from (end_in part.now result) }
{
    let newline = first(part, b'\n', from)?;
    Some(newline + 1)
}

// No unit ended: what is kept of it.
fn wants(at: usize, held: usize, passed: usize) -> Fed
    ensures { result ≡ wants_at at held passed }
{
    Fed {
        at,
        state: State { held, passed },
        unit: Unit::Open,
    }
}

// A unit ended, and the next one has not begun.
fn ends(at: usize, unit: Unit) -> Fed
    ensures { result ≡ ends_at at unit }
{
    Fed {
        at,
        state: State { held: 0, passed: 0 },
        unit,
    }
}
