// What is asked of a line and said of it. The payload is found once, and its data once: the pieces are walked, so that the work is that of a line's
// length.
ghost use Rattle.std.specs.Prelude.{◌≡◌, ◌≤◌, length};
ghost use Rattle.why_rows.specs.Tally.{no_counts, with_line};
ghost use Rattle.why.specs.Finding.{unread, key_found, data_found, pieces_found, found_in, ReadingWithin};
ghost use Rattle.reasons.specs.Reasons.{data_span};
ghost use Rattle.pairs.specs.Data.{cut};

use channel::sink::Outlet;
use pairs::dwords::piece_end;
use pairs::pair::Span;
use print::page::Page;
use reasons::payload::{Place, find_data, payload_of};
use reasons::{Key, key_in};
use text::number::{BadNumber, MAX_32, hex};
use why_rows::tally::Counts;
use why_rows::{What, put_row, put_totals};

// What waits to be written, what was counted, and a buffer that has room for a row of the longest line.
#[derive(Drop)]
pub struct Asking<'a> {
    pub sink: Outlet<'a>,
    pub counts: Counts,
    pub row: &'a mut [u8],
    ghost room: { 20736 ≤ length row.now },
}

impl<'a> Asking<'a> {
    ghost use Rattle.channel.specs.Sink.{FlushedThrough};
    ghost use Rattle.why.specs.Saying.{Gone, LineSaid, TotalsSaid};

    pub fn new(sink: Outlet<'a>, row: &'a mut [u8]) -> Asking<'a>
        requires { 20736 ≤ length row.old }
        ensures { result.counts ≡ no_counts }
    {
        Asking {
            sink,
            counts: Counts::new(),
            row,
        }
    }

    // A line that nothing is said of.
    pub fn count_line(&mut self)
        ensures counted { self.new.counts ≡ with_line self.old.counts }
        ensures unsaid { self.new.sink ≡ self.old.sink }
    {
        self.counts.count_line();
    }

    // Writes what waits.
    pub fn flush(&mut self)
        ensures { FlushedThrough self.old.sink self.new.sink }
    {
        self.sink.flush();
    }

    // The rows of a line's unreadable numbers.
    pub fn say_line(&mut self, line: &[u8])
        ensures { LineSaid line.now self.old self.new }
    {
        self.count_line();
        if let Ok(Place { from, to }) = payload_of(line) {
            self.counts.count_payload();
            self.say_payload(&line[from..to]);
        }
    }

    // Each key's, then those of the data.
    fn say_payload(&mut self, payload: &[u8])
        requires { length payload.now ≤ 4096 }
        ensures { Gone self.old (found_in payload.now) self.new }
    {
        self.say_key(payload, Key::Route);
        self.say_key(payload, Key::Offset);
        self.say_key(payload, Key::Error);
        self.say_key(payload, Key::Config);
        self.say_key(payload, Key::Unplug);
        self.say_data(payload);
    }

    fn say_key(&mut self, payload: &[u8], key: Key)
        requires { length payload.now ≤ 4096 }
        ensures { Gone self.old (key_found payload.now key) self.new }
    {
        if let Some(text) = key_in(payload, 0, key) {
            self.say_text(What::Key(key), &payload[text.from..text.to], text.reading);
        }
    }

    fn say_data(&mut self, payload: &[u8])
        requires { length payload.now ≤ 4096 }
        ensures { Gone self.old (data_found payload.now (data_span payload.now)) self.new }
    {
        if let Some(Span { from, to }) = find_data(payload) {
            self.say_pieces(&payload[from..to]);
        }
    }

    // Piece by piece. A loop of its own: the last piece ends with the text, and an empty text has one.
    fn say_pieces(&mut self, inner: &[u8])
        requires { length inner.now ≤ 4096 }
        ensures { Gone self.old (pieces_found 0 (cut inner.now)) self.new }
    {
        let mut i = 0;
        let mut at = 0;
        loop {
            let to = piece_end(inner, at);
            let piece = &inner[at..to];
            self.say_text(What::Piece(i), piece, hex(piece, MAX_32));
            if to == inner.len() {
                return;
            }
            i += 1;
            at = to + 2;
        }
    }

    // A row for a text that is no number, and nothing for one that is.
    fn say_text(&mut self, what: What, text: &[u8], reading: Result<u64, BadNumber>)
        requires short { length text.now ≤ 4096 }
        requires within { ReadingWithin reading (length text.now) }
        ensures { Gone self.old (unread what text.now reading) self.new }
    {
        let Err(reason) = reading else {
            return;
        };
        let mut page = Page::new(self.row);
        put_row(&mut page, self.counts.lines, what, text, reason);
        self.sink.say(page.text());
        self.counts.count_reason(reason);
    }

    // The totals.
    pub fn say_end(&mut self)
        ensures { TotalsSaid self.old self.new }
    {
        let mut page = Page::new(self.row);
        put_totals(&mut page, self.counts);
        self.sink.say(page.text());
    }
}
