// Where the program stands between two parts of its input.
ghost use Rattle.std.specs.Prelude.{◌≡◌, ◌≤◌, length, take};
ghost use Rattle.channel.specs.Moving.{Read};

use crate::rows::{say_end, say_line};
use channel::fault::{Fault, NO_REASON};
use channel::reading::read_some;
use channel::sink::Outlet;
use desk::Desk;
use framing::{Framing, feed};
use scan::Pieces;
use std::io::Stdin;

// What waits to be written, what is kept of the lines, and so many bytes of the open line.
#[derive(Drop)]
pub struct Matching<'a> {
    pub sink: Outlet<'a>,
    pub desk: Desk,
    pub pieces: Pieces,
    pub unit: &'a mut [u8],
    pub held: usize,
    ghost room: { 65539 ≤ length unit.now },
    ghost inside: { held ≤ length unit.now },
}

impl<'a> Matching<'a> {
    ghost use Rattle.unanswered.specs.Saying.{LineSaid};
    ghost use Rattle.unanswered.specs.Reading.{ReadTaken};

    pub fn new(sink: Outlet<'a>, unit: &'a mut [u8], pieces: Pieces) -> Matching<'a>
        requires { 65539 ≤ length unit.old }
        ensures { result.held ≡ 0 }
    {
        Matching {
            sink,
            desk: Desk::new(),
            pieces,
            unit,
            held: 0,
        }
    }

    // Part after part to the end of the input; after a write that failed nothing more is read. No input lasts for all the turns.
    pub fn read_all(&mut self, mut from: Stdin, input: &mut [u8]) -> Result<(), Fault> {
        for _ in 0..u64::MAX {
            let read = read_some(&mut from, input);
            if let Some(end) = self.take_read(read, input) {
                return end;
            }
        }
        Err(NO_REASON)
    }

    // The part that was read, or the end; how the reading ends, where it does. A read that failed ends it with its fault, and nothing else is done.
    fn take_read(
        &mut self,
        read: Result<Option<usize>, Fault>,
        input: &[u8],
    ) -> Option<Result<(), Fault>>
        requires { Read (length input.now) read }
        ensures { ReadTaken read self.old self.new result }
    {
        match read {
            Ok(Some(n)) => {
                self.take_part(&input[..n]);
                self.sink.sink.fault.is_some().then_some(Ok(()))
            }
            Ok(None) => {
                self.end();
                Some(Ok(()))
            }
            Err(fault) => Some(Err(fault)),
        }
    }

    // All lines that end in a part; what is open is held.
    fn take_part(&mut self, part: &[u8]) {
        let mut from = 0;
        while from < part.len() && self.sink.sink.fault.is_none() {
            let fed = feed(Framing::Lines, part, from, self.unit, self.held);
            from = fed.at;
            self.held = fed.held;
            if fed.whole {
                self.take_line();
            }
        }
    }

    // The line that is held. One that starts with A1 is refused as every other text that is no line.
    fn take_line(&mut self)
        ensures emptied { self.new.held ≡ 0 }
        ensures said { LineSaid self.old.pieces (take self.old.held self.old.unit.now) self.old.desk self.old.sink self.new.desk self.new.sink }
    {
        say_line(
            &mut self.sink,
            &mut self.desk,
            &self.unit[..self.held],
            self.pieces,
        );
        self.held = 0;
    }

    // A last line with no newline counts if it has a byte. Then what waits, and the totals.
    fn end(&mut self) {
        if 0 < self.held {
            self.take_line();
        }
        say_end(&mut self.sink, &self.desk);
    }
}
