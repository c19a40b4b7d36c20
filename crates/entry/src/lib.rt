// The entry of a trace line by value, and its questions. Its texts and dwords lie in what the caller lends.
#![tactic(auto)]

mod codes;
pub mod events;
pub mod kind;

ghost use Rattle.std.specs.Prelude.{◌≡◌};
ghost use Rattle.text.specs.Told.{maybe};
ghost use Rattle.entry.specs.Entry.{OwnPartAt, event_of_code, adapter_of, unplug_of};

use crate::events::Event;

#[derive(Clone, Copy, Debug, PartialEq, Eq, Hash)]
pub struct Entry {
    pub task_at: usize,
    pub task_len: usize,
    pub pid: u32,
    pub cpu: u16,
    pub seconds: u64,
    pub microseconds: u64,
    pub function_at: usize,
    pub function_len: usize,
    // The number of a `Kind`; a caller of `writer::write` may set one that is none, which 37 refuses.
    pub kind: u8,
    pub size: u16,
    pub dropped: bool,
    pub domain: u32,
    pub route: u64,
    pub offset: Option<u16>,
    pub code: Option<u8>,
    pub len: Option<u16>,
    pub port: Option<u8>,
    pub config: Option<u8>,
    pub seq: Option<u8>,
    pub unplug: Option<u8>,
    pub dwords: usize,
}

impl Entry {
    // The notification's event, where the entry has a code.
    #[tactic(auto, unfolding(crate::specs::Entry::event_of_code))]
    pub fn event(self) -> Option<Event>
        ensures { maybe result ≡ event_of_code self.code }
    {
        self.code.map(Event::from_code)
    }

    // The adapter: the port, but for the two events that carry something else in its place.
    #[tactic(auto, unfolding(crate::specs::Entry::adapter_of))]
    pub fn adapter_num(self) -> Option<u8>
        ensures { maybe result ≡ adapter_of self.code self.port }
    {
        match self.code {
            Some(33 | 36) => None,
            _ => self.port,
        }
    }

    // Does the entry report an unplug? The byte itself stays in the entry.
    #[tactic(auto, unfolding(crate::specs::Entry::unplug_of))]
    pub fn unplug(self) -> Option<bool>
        ensures { maybe result ≡ unplug_of self.unplug }
    {
        self.unplug.map(|b| b == 1)
    }

    // The task's bytes, the caller's own: a part of the text that the entry was read from; of another text that is too short, an empty part at its
    // start.
    pub fn task<'a>(self, text: &'a [u8]) -> &'a [u8]
        ensures { OwnPartAt 1 text.entry self.task_at self.task_len result }
    {
        part(text, self.task_at, self.task_len)
    }

    // The function's bytes, likewise.
    pub fn function<'a>(self, text: &'a [u8]) -> &'a [u8]
        ensures { OwnPartAt 1 text.entry self.function_at self.function_len result }
    {
        part(text, self.function_at, self.function_len)
    }

    // The packet's dwords, the first of the lent slots; of slots that are too few, an empty part at their start.
    pub fn data<'a>(self, slots: &'a [u32]) -> &'a [u32]
        ensures { OwnPartAt 4 slots.entry 0 self.dwords result }
    {
        // Not by `get`: its contract does not say where the part lies, and `OwnPartAt` does.
        let n = self.dwords;
        if slots.len() < n {
            return &slots[..0];
        }
        &slots[..n]
    }
}

// The part that starts at a place, of a length; empty and at the start where it would lie outside.
fn part<'a>(text: &'a [u8], at: usize, len: usize) -> &'a [u8]
    ensures { OwnPartAt 1 text.entry at len result }
{
    // Not by `get`, as in `data`.
    if text.len() < at || text.len() - at < len {
        return &text[..0];
    }
    &text[at..at + len]
}
