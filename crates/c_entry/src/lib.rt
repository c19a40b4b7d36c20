// The entry as plain numbers, for callers in C: a struct with no enum in it.
//
//     Flat::from     an entry to its numbers
//     Flat::raise    numbers to their entry, where each is in range
#![tactic(auto)]

ghost use Rattle.std.specs.Prelude.{◌≡◌, MatchOption};
ghost use Rattle.c_entry.specs.Flat.{absent, flat_of, raised_told, raise_of, entry_of, byte_of, word_of, in_range, bytes_in_range, is_below};

use entry::Entry;

// Stands for an optional field that is absent: no byte and no number of two bytes is that large.
pub const ABSENT: u32 = 0xffff_ffff;

// The fields of an entry in its order. C has no Option: an optional field is one number there, ABSENT or its value.
#[repr(C)]
#[derive(Clone, Copy)]
pub struct Flat {
    pub task_at: usize,
    pub task_len: usize,
    pub pid: u32,
    pub cpu: u16,
    pub seconds: u64,
    pub microseconds: u64,
    pub function_at: usize,
    pub function_len: usize,
    pub kind: u8,
    pub size: u16,
    pub dropped: u8,
    pub domain: u32,
    pub route: u64,
    pub offset: u32,
    pub code: u32,
    pub len: u32,
    pub port: u32,
    pub config: u32,
    pub seq: u32,
    pub unplug: u32,
    pub dwords: usize,
}

impl From<Entry> for Flat {
    ghost from_gives = { λ e f. f ≡ flat_of e };

    fn from(e: Entry) -> Flat {
        Flat {
            task_at: e.task_at,
            task_len: e.task_len,
            pid: e.pid,
            cpu: e.cpu,
            seconds: e.seconds,
            microseconds: e.microseconds,
            function_at: e.function_at,
            function_len: e.function_len,
            kind: e.kind,
            size: e.size,
            dropped: e.dropped.into(),
            domain: e.domain,
            route: e.route,
            offset: or_absent(e.offset),
            code: or_absent(e.code),
            len: or_absent(e.len),
            port: or_absent(e.port),
            config: or_absent(e.config),
            seq: or_absent(e.seq),
            unplug: or_absent(e.unplug),
            dwords: e.dwords,
        }
    }
}

// The value, 1 for yes and 0 for no; or ABSENT.
pub fn or_absent<T: Into<u32>>(v: Option<T>) -> u32
    ensures { MatchOption v (result ≡ absent) (λ x. T.converts x result) }
{
    v.map_or(ABSENT, T::into)
}

impl Flat {
    // Out of range is what no entry flattens to: a `dropped` other than 0 and 1, an optional field that is neither ABSENT nor within its width.
    #[tactic(auto, unfolding(crate::specs::Flat::raise_of))]
    pub fn raise(self) -> Option<Entry>
        ensures { raised_told result ≡ raise_of self }
    {
        self.is_in_range().then_some(self.entry())
    }

    #[tactic(auto, unfolding(crate::specs::Flat::in_range, crate::specs::Flat::is_word))]
    fn is_in_range(self) -> bool
        ensures { result ≡ in_range self }
    {
        self.dropped <= 1
            && is_below(self.offset, 65_536)
            && is_below(self.len, 65_536)
            && self.are_bytes()
    }

    #[tactic(auto, unfolding(crate::specs::Flat::bytes_in_range, crate::specs::Flat::is_byte))]
    fn are_bytes(self) -> bool
        ensures { result ≡ bytes_in_range self }
    {
        is_below(self.code, 256)
            && is_below(self.port, 256)
            && is_below(self.config, 256)
            && is_below(self.seq, 256)
            && is_below(self.unplug, 256)
    }

    // The entry of these numbers; what is past its width counts as absent.
    #[tactic(auto, unfolding(crate::specs::Flat::entry_of))]
    pub fn entry(self) -> Entry
        ensures { result ≡ entry_of self }
    {
        Entry {
            task_at: self.task_at,
            task_len: self.task_len,
            pid: self.pid,
            cpu: self.cpu,
            seconds: self.seconds,
            microseconds: self.microseconds,
            function_at: self.function_at,
            function_len: self.function_len,
            kind: self.kind,
            size: self.size,
            dropped: self.dropped == 1,
            domain: self.domain,
            route: self.route,
            offset: word_of(self.offset),
            code: byte_of(self.code),
            len: word_of(self.len),
            port: byte_of(self.port),
            config: byte_of(self.config),
            seq: byte_of(self.seq),
            unplug: byte_of(self.unplug),
            dwords: self.dwords,
        }
    }
}

// Below the width, or ABSENT.
fn is_below(n: u32, width: u32) -> bool
    ensures { result ≡ is_below width n }
{
    n < width || n == ABSENT
}

#[tactic(auto, unfolding(crate::specs::Flat::byte_of))]
pub fn byte_of(n: u32) -> Option<u8>
    ensures { result ≡ byte_of n }
{
    u8::try_from(n).ok()
}

#[tactic(auto, unfolding(crate::specs::Flat::word_of))]
fn word_of(n: u32) -> Option<u16>
    ensures { result ≡ word_of n }
{
    u16::try_from(n).ok()
}
