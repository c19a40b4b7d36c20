// An entry with one of its numbers set, so that one comes to be written whose parts lie elsewhere or that is out of a record's ranges.
ghost use Rattle.std.specs.Prelude.{◌≡◌};
ghost use Rattle.oracle_record_rows.specs.Setting.{set_or};

use entry::Entry;

// Which number, 0 for none, and what it is set to; of the value the rest counts where the number is narrower.
#[derive(Clone, Copy)]
pub struct Change {
    pub number: u8,
    pub value: u64,
}

impl Change {
    pub fn set(self, e: Entry) -> Entry {
        Entry {
            task_at: self.set_or(1, e.task_at as u64) as usize,
            task_len: self.set_or(2, e.task_len as u64) as usize,
            function_at: self.set_or(3, e.function_at as u64) as usize,
            function_len: self.set_or(4, e.function_len as u64) as usize,
            dwords: self.set_or(5, e.dwords as u64) as usize,
            cpu: (self.set_or(6, e.cpu as u64) % 65_536) as u16,
            seconds: self.set_or(7, e.seconds),
            microseconds: self.set_or(8, e.microseconds),
            kind: (self.set_or(9, e.kind as u64) % 256) as u8,
            ..e
        }
    }

    // The value that a number is set to, or what it is.
    fn set_or(self, number: u8, old: u64) -> u64
        ensures { result ≡ set_or self number old }
    {
        if self.number == number {
            return self.value;
        }
        old
    }
}
