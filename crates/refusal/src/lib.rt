// Document 01's refusals, each with its number. The table with their sentences is refusals.txt; tests/numbers/run holds this file to it.
#![tactic(auto)]

ghost use Rattle.std.specs.Prelude.{◌≡◌};
ghost use Rattle.refusal.specs.Number.{number_of};

#[derive(Clone, Copy, Debug, PartialEq, Eq, Hash)]
pub enum Refusal {
    Idle = 1,
    LongLine = 2,
    NotAscii = 3,
    NoColon = 4,
    NoTask = 5,
    NoPid = 6,
    NoCpu = 7,
    NoTimestamp = 8,
    NoFunction = 9,
    NoType = 11,
    NoSize = 12,
    NoDomain = 13,
    NoRoute = 14,
    NoData = 15,
    ManyDwords = 16,
    FewSlots = 17,
    BadPiece = 18,
    BadBook = 20,
    NoKind = 21,
    NoTable = 22,
    NoHeaderTable = 23,
    LongPacket = 24,
    ShortPacket = 25,
    FewPlaces = 26,
    NoPacketRoute = 27,
    UnnamedType = 28,
    NoRecord = 30,
    Overrun = 31,
    BadTag = 32,
    MissingTag = 33,
    BadBody = 34,
    FewRecordSlots = 35,
    ShortBuffer = 36,
    BadEntry = 37,
    TableSize = 50,
    BrokenTable = 51,
    NoStream = 53,
    CutRecord = 54,
    LongRecord = 55,
}

impl Refusal {
    // The number that document 01 gives it: what C, a record of answers and a listing say.
    pub fn number(self) -> u8
        ensures { result ≡ number_of self }
    {
        self as u8
    }
}
