// Where the payload of a line stands, and in it the text of its data.
ghost use Rattle.std.specs.Prelude.{◌≡◌, ◌<◌, length};
ghost use Rattle.reasons.specs.Reasons.{PayloadAt, PlacedAt, DataAt};

use pairs::dwords::inside;
use pairs::pair::{Span, last_pair};
use refusal::Refusal;
use scan::frame::read_frame;
use text::class::Class;
use text::run::{run_end, strip};

// A part of the line.
#[derive(Clone, Copy)]
pub struct Place {
    pub from: usize,
    pub to: usize,
}

// Where the payload stands.
pub fn payload_of(line: &[u8]) -> Result<Place, Refusal>
    ensures { PayloadAt line.now result }
{
    let colon = read_frame(line)?;
    Ok(payload_behind(line, colon))
}

// What stands behind the colon, without the blanks at its ends.
fn payload_behind(line: &[u8], colon: usize) -> Place
    requires { colon < length line.now }
    ensures { PlacedAt line.now colon result }
{
    let behind = colon + 1;
    let rest = &line[behind..];
    let blanks = run_end(rest, Class::Blank, 0);
    let payload = strip(rest);
    let from = behind + blanks;
    Place {
        from: from,
        to: from + payload.len(),
    }
}

// What stands between the brackets of the last `data`.
pub fn find_data(payload: &[u8]) -> Option<Span>
    ensures { DataAt payload.now result }
{
    let value = last_pair(payload, b"data")?;
    let inner = inside(&payload[value.from..value.to])?;
    Some(Span {
        from: value.from + inner.from,
        to: value.from + inner.to,
    })
}
