// How many lines, payloads and unreadable numbers there were. No count passes the end of its type.
ghost use Rattle.std.specs.Prelude.{◌≡◌};
ghost use Rattle.why_rows.specs.Tally.{no_counts, with_line, with_payload, tally};

use text::number::BadNumber;

#[derive(Clone, Copy, Debug, PartialEq, Eq, Hash)]
pub struct Counts {
    pub lines: u64,
    pub payloads: u64,
    pub unreadable: u64,
    pub empty: u64,
    pub bad: u64,
    pub wide: u64,
}

impl Counts {
    // Nothing was counted.
    pub fn new() -> Counts
        ensures { result ≡ no_counts }
    {
        Counts {
            lines: 0,
            payloads: 0,
            unreadable: 0,
            empty: 0,
            bad: 0,
            wide: 0,
        }
    }

    // One more line.
    #[tactic(auto, unfolding(crate::specs::Tally::with_line, crate::specs::Tally::up))]
    pub fn count_line(&mut self)
        ensures { self.new ≡ with_line self.old }
    {
        self.lines = self.lines.saturating_add(1);
    }

    // It has a payload.
    #[tactic(auto, unfolding(crate::specs::Tally::with_payload, crate::specs::Tally::up))]
    pub fn count_payload(&mut self)
        ensures { self.new ≡ with_payload self.old }
    {
        self.payloads = self.payloads.saturating_add(1);
    }

    // One more number that is unreadable for that reason.
    #[tactic(auto, unfolding(crate::specs::Tally::tally, crate::specs::Tally::up))]
    pub fn count_reason(&mut self, reason: BadNumber)
        ensures { self.new ≡ tally self.old reason }
    {
        self.unreadable = self.unreadable.saturating_add(1);
        match reason {
            BadNumber::Empty => self.empty = self.empty.saturating_add(1),
            BadNumber::BadDigit(_) => self.bad = self.bad.saturating_add(1),
            BadNumber::TooWide => self.wide = self.wide.saturating_add(1),
        }
    }
}
