// What a program keeps while it matches the lines of a stream: the table, a note beside each slot, and the counts. It is as large as ever after any
// number of lines.
#![tactic(auto)]

ghost use Rattle.std.specs.Prelude.{◌≡◌, get_or, replicate};
ghost use Rattle.slots.specs.Decide.{free_slot};
ghost use Rattle.desk.specs.Kept.{no_note, no_counts};
ghost use Rattle.desk.specs.Turn.{Entered, Filed, Turned, noted};

use entry::Entry;
use refusal::Refusal;
use scan::{Pieces, parse};
use slots::decide::Report;
use table::Table;
use unanswered_rows::gap::{Gap, Moment};
use unanswered_rows::{Counts, Note, Row};

#[derive(Clone, Copy)]
pub struct Desk {
    pub table: Table,
    pub notes: [Note; 64],
    pub counts: Counts,
}

impl Desk {
    // Nothing was read.
    pub fn new() -> Desk
        ensures table { result.table.slots ≡ replicate 64 free_slot }
        ensures notes { result.notes ≡ replicate 64 no_note }
        ensures counts { result.counts ≡ no_counts }
    {
        Desk {
            table: Table::empty(),
            notes: [blank(); 64],
            counts: Counts {
                lines: 0,
                entries: 0,
                taken: 0,
                answered: 0,
                away: 0,
                stray: 0,
            },
        }
    }

    // One more line, read by a choice: what is kept then, and what its row says.
    pub fn step_line(&mut self, line: &[u8], pieces: Pieces) -> Result<Row, Refusal>
        ensures { Turned pieces line.now self.old self.new result }
    {
        self.counts.lines = self.counts.lines.saturating_add(1);
        let mut slots = [0u32; 256];
        let e = parse(line, pieces, &mut slots)?;
        self.step_entry(e)
    }

    // The note beside a slot.
    pub fn note_at(&self, i: usize) -> Note
        ensures { result ≡ get_or self.now.notes i no_note }
    {
        if i < 64 { self.notes[i] } else { blank() }
    }

    fn step_entry(&mut self, e: Entry) -> Result<Row, Refusal>
        ensures { Entered e self.old self.new result }
    {
        self.counts.entries = self.counts.entries.saturating_add(1);
        let note = Note {
            line: self.counts.lines,
            at: Moment {
                seconds: e.seconds,
                microseconds: e.microseconds,
            },
        };
        let report = self.table.step(e)?;
        Ok(self.file(report, note))
    }

    // What a report changes beside the table, and what its row says: a request that is taken is noted beside its slot, an answer says which line it
    // answers, and the time between both.
    #[tactic(auto, unfolding(crate::specs::Kept::notes_after, crate::specs::Kept::row_by))]
    fn file(&mut self, report: Report, note: Note) -> Row
        ensures { Filed report note self.old self.new result }
    {
        match report {
            Report::Dropped => Row::Dropped,
            Report::Other => Row::Other,
            Report::NoSeq => Row::NoSeq,
            Report::Taken(i) => {
                self.counts.taken = self.counts.taken.saturating_add(1);
                self.put_note(i, note);
                Row::Taken
            }
            Report::TurnedAway => {
                self.counts.away = self.counts.away.saturating_add(1);
                Row::TurnedAway
            }
            Report::Answered(i) => {
                self.counts.answered = self.counts.answered.saturating_add(1);
                let request = self.note_at(i);
                Row::Answered {
                    request: request.line,
                    gap: Gap::between(request.at, note.at),
                }
            }
            Report::Stray => {
                self.counts.stray = self.counts.stray.saturating_add(1);
                Row::Stray
            }
        }
    }

    fn put_note(&mut self, i: usize, note: Note)
        ensures { self.new ≡ noted self.old i note }
    {
        if i < 64 {
            self.notes[i] = note;
        }
    }
}

// Beside a slot that no request took.
fn blank() -> Note
    ensures { result ≡ no_note }
{
    Note {
        line: 0,
        at: Moment {
            seconds: 0,
            microseconds: 0,
        },
    }
}
