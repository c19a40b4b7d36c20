// The event decision, laid out like table 6-12 of USB4 v2.0: a row a code with its event and its name, in number order, the gaps as ranges.
ghost use Rattle.std.specs.Prelude.{◌≡◌, ◌≤◌, length};
ghost use Rattle.text.specs.Decimal.{decimal_text};
ghost use Rattle.entry.specs.declared.events.Event.TheVariants.{Unknown};
ghost use Rattle.entry.specs.Event.{event_of, name_at, padded};

use crate::events::{Event, Name};
use text::copy::copy;

// What a code stands for, and the name that it prints.
#[derive(Clone, Copy, Debug, PartialEq, Eq, Hash)]
pub struct Decision {
    pub event: Event,
    pub name: Name,
}

// The row that holds the code: its event and its name. One arm a row, as the paper's table has it.
pub fn decide(code: u8) -> Decision
    ensures { (result.event ≡ event_of code) × (result.name ≡ padded (name_at code)) }
{
    match code {
        0 => named(Event::ErrConn, b"ERR_CONN"),
        1 => named(Event::ErrLink, b"ERR_LINK"),
        2 => named(Event::ErrAddr, b"ERR_ADDR"),
        3 => unnamed(code),
        4 => named(Event::ErrAdp, b"ERR_ADP"),
        5..=6 => unnamed(code),
        7 => named(Event::HpAck, b"HP_ACK"),
        8 => named(Event::ErrEnum, b"ERR_ENUM"),
        9 => named(Event::ErrNua, b"ERR_NUA"),
        10 => unnamed(code),
        11 => named(Event::ErrLen, b"ERR_LEN"),
        12 => named(Event::ErrHec, b"ERR_HEC"),
        13 => named(Event::ErrFc, b"ERR_FC"),
        14 => named(Event::ErrPlug, b"ERR_PLUG"),
        15 => named(Event::ErrLock, b"ERR_LOCK"),
        16..=31 => unnamed(code),
        32 => named(Event::DpBw, b"DP_BW"),
        33 => named(Event::RopCmplt, b"ROP_CMPLT"),
        34 => named(Event::PopCmplt, b"POP_CMPLT"),
        35 => named(Event::PcieWake, b"PCIE_WAKE"),
        36 => named(Event::DpConChange, b"DP_CON_CHANGE"),
        37 => named(Event::DptxDiscovery, b"DPTX_DISCOVERY"),
        38 => named(Event::LinkRecovery, b"LINK_RECOVERY"),
        39 => named(Event::AsymLink, b"ASYM_LINK"),
        40..=255 => unnamed(code),
    }
}

// The name in a code's row.
pub fn name_at(code: u8) -> Name
    ensures { result ≡ padded (name_at code) }
{
    decide(code).name
}

// A row of one code: its event, and its name with zeros behind it.
fn named(event: Event, name: &[u8]) -> Decision
    requires { length name.now ≤ 14 }
    ensures { (result.event ≡ event) × (result.name ≡ padded name.now) }
{
    Decision {
        event,
        name: pad(name),
    }
}

// A code of a gap stays unknown and prints in decimal.
fn unnamed(code: u8) -> Decision
    ensures { (result.event ≡ Unknown code) × (result.name ≡ padded (decimal_text code)) }
{
    Decision {
        event: Event::Unknown(code),
        name: decimal(code),
    }
}

// A code in decimal, without zeros in front.
pub fn decimal(code: u8) -> Name
    ensures { result ≡ padded (decimal_text code) }
{
    let ones = b'0' + code % 10;
    if code < 10 {
        return pad(&[ones]);
    }
    let tens = b'0' + code / 10 % 10;
    if code < 100 {
        return pad(&[tens, ones]);
    }
    pad(&[b'0' + code / 100, tens, ones])
}

// A text with zeros behind it.
fn pad(s: &[u8]) -> Name
    requires { length s.now ≤ 14 }
    ensures { result ≡ padded s.now }
{
    let len = s.len();
    let mut bytes = [0; 14];
    copy(s, &mut bytes[..len]);
    Name { bytes, len }
}
