// The entry from the fields of a good record.
ghost use Rattle.std.specs.Prelude.{◌≡◌};
ghost use Rattle.record.specs.Gathering.{entry_of};

use crate::find::{eight_of, four_of, maybe_byte, maybe_word, one_of, place_of, two_of};
use entry::Entry;

#[tactic(auto, unfolding(crate::specs::Gathering::entry_of))]
pub fn entry_of(text: &[u8]) -> Entry
    ensures { result ≡ entry_of text.now }
{
    let task = place_of(text, 0x01);
    let function = place_of(text, 0x06);
    Entry {
        task_at: task.from,
        task_len: task.len,
        pid: four_of(text, 0x02),
        cpu: two_of(text, 0x03),
        seconds: eight_of(text, 0x04),
        microseconds: eight_of(text, 0x05),
        function_at: function.from,
        function_len: function.len,
        kind: one_of(text, 0x07),
        size: two_of(text, 0x08),
        dropped: one_of(text, 0x09) == 1,
        domain: four_of(text, 0x0A),
        route: eight_of(text, 0x0B),
        offset: maybe_word(text, 0x0C),
        code: maybe_byte(text, 0x0D),
        len: maybe_word(text, 0x0E),
        port: maybe_byte(text, 0x0F),
        config: maybe_byte(text, 0x10),
        seq: maybe_byte(text, 0x11),
        unplug: maybe_byte(text, 0x12),
        dwords: place_of(text, 0x13).len / 4,
    }
}
