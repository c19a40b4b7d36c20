// The kind of a packet, from its type's text and the kernel function that traced it.
ghost use Rattle.std.specs.Prelude.{◌≡◌};
ghost use Rattle.entry.specs.Kind.{Numbered, number_of, kind_of, other_kind, by_direction};

// Ours, not wire numbers. Reads and writes are requests when sent and responses when received.
#[derive(Clone, Copy, Debug, PartialEq, Eq, Hash)]
pub enum Kind {
    Other = 0,
    ReadRequest = 1,
    ReadResponse = 2,
    WriteRequest = 3,
    WriteResponse = 4,
    Error = 5,
    NotifyAck = 6,
    Event = 7,
    XDomainRequest = 8,
    XDomainResponse = 9,
    IcmEvent = 10,
    IcmCommand = 11,
    IcmResponse = 12,
}

impl Kind {
    // What an entry, a record and C say for it.
    pub fn number(self) -> u8
        ensures { result ≡ number_of self }
    {
        self as u8
    }
}

// A number that no kind has.
#[derive(Clone, Copy, Debug, PartialEq, Eq, Hash)]
pub struct UnknownKind(pub u8);

impl TryFrom<u8> for Kind {
    type Error = UnknownKind;

    ghost try_from_gives = { Numbered };

    fn try_from(number: u8) -> Result<Self, UnknownKind> {
        match number {
            0 => Ok(Kind::Other),
            1 => Ok(Kind::ReadRequest),
            2 => Ok(Kind::ReadResponse),
            3 => Ok(Kind::WriteRequest),
            4 => Ok(Kind::WriteResponse),
            5 => Ok(Kind::Error),
            6 => Ok(Kind::NotifyAck),
            7 => Ok(Kind::Event),
            8 => Ok(Kind::XDomainRequest),
            9 => Ok(Kind::XDomainResponse),
            10 => Ok(Kind::IcmEvent),
            11 => Ok(Kind::IcmCommand),
            12 => Ok(Kind::IcmResponse),
            _ => Err(UnknownKind(number)),
        }
    }
}

// The kind of a type's text and a function.
#[tactic(auto, unfolding(crate::specs::Kind::kind_of))]
pub fn kind_of(name: &[u8], function: &[u8]) -> Kind
    ensures { number_of result ≡ kind_of name.now function.now }
{
    if name == b"TB_CFG_PKG_READ".as_slice() {
        by_direction(function, Kind::ReadRequest, Kind::ReadResponse)
    } else if name == b"TB_CFG_PKG_WRITE".as_slice() {
        by_direction(function, Kind::WriteRequest, Kind::WriteResponse)
    } else {
        other_kind(name)
    }
}

#[tactic(auto, unfolding(crate::specs::Kind::by_direction))]
fn by_direction(function: &[u8], sent: Kind, received: Kind) -> Kind
    ensures { number_of result ≡ by_direction function.now (number_of sent) (number_of received) }
{
    if function == b"tb_tx".as_slice() {
        sent
    } else if function == b"tb_rx".as_slice() {
        received
    } else {
        Kind::Other
    }
}

#[tactic(auto, unfolding(crate::specs::Kind::other_kind))]
fn other_kind(name: &[u8]) -> Kind
    ensures { number_of result ≡ other_kind name.now }
{
    if name == b"TB_CFG_PKG_ERROR".as_slice() {
        Kind::Error
    } else if name == b"TB_CFG_PKG_NOTIFY_ACK".as_slice() {
        Kind::NotifyAck
    } else if name == b"TB_CFG_PKG_EVENT".as_slice() {
        Kind::Event
    } else if name == b"TB_CFG_PKG_XDOMAIN_REQ".as_slice() {
        Kind::XDomainRequest
    } else if name == b"TB_CFG_PKG_XDOMAIN_RESP".as_slice() {
        Kind::XDomainResponse
    } else if name == b"TB_CFG_PKG_ICM_EVENT".as_slice() {
        Kind::IcmEvent
    } else if name == b"TB_CFG_PKG_ICM_CMD".as_slice() {
        Kind::IcmCommand
    } else if name == b"TB_CFG_PKG_ICM_RESP".as_slice() {
        Kind::IcmResponse
    } else {
        Kind::Other
    }
}
