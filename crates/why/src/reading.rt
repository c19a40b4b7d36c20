// The input, part after part and line after line.
ghost use Rattle.std.specs.Prelude.{◌≡◌, ◌≤◌, length, take};
ghost use Rattle.channel.specs.Moving.{Read};

use crate::asking::Asking;
use channel::fault::{Fault, NO_REASON};
use channel::reading::read_some;
use framing::{Framing, feed};
use std::io::Stdin;
use text::place::byte_at;

// Why the input was left before its end: a read failed, or a line starts with A1.
#[derive(Clone, Copy, Debug, PartialEq, Eq)]
pub enum Stop {
    Unread(Fault),
    Record,
}

// What is asked and said, and so many bytes of the open line.
#[derive(Drop)]
pub struct Reading<'a> {
    pub asking: Asking<'a>,
    pub unit: &'a mut [u8],
    pub held: usize,
    ghost room: { 65539 ≤ length unit.now },
    ghost inside: { held ≤ length unit.now },
}

impl<'a> Reading<'a> {
    ghost use Rattle.why.specs.Reading.{ReadTaken, LineTaken, AtRecord};

    pub fn new(asking: Asking<'a>, unit: &'a mut [u8]) -> Reading<'a>
        requires { 65539 ≤ length unit.old }
        ensures { result.held ≡ 0 }
    {
        Reading {
            asking,
            unit,
            held: 0,
        }
    }

    // Part after part to the end of the input; after a write that failed nothing more is read. No input lasts for all the turns.
    pub fn read_all(&mut self, mut from: Stdin, input: &mut [u8]) -> Result<(), Stop> {
        for _ in 0..u64::MAX {
            let read = read_some(&mut from, input);
            if let Some(end) = self.take_read(read, input) {
                return end;
            }
        }
        Err(Stop::Unread(NO_REASON))
    }

    // The part that was read, or the end; how the reading ends, where it does. A read that failed ends it with its fault, and nothing else is done.
    fn take_read(
        &mut self,
        read: Result<Option<usize>, Fault>,
        input: &[u8],
    ) -> Option<Result<(), Stop>>
        requires { Read (length input.now) read }
        ensures { ReadTaken read self.old self.new result }
    {
        match read {
            Ok(Some(n)) => match self.take_part(&input[..n]) {
                Ok(()) => self.asking.sink.sink.fault.is_some().then_some(Ok(())),
                Err(stop) => Some(Err(stop)),
            },
            Ok(None) => Some(self.end()),
            Err(fault) => Some(Err(Stop::Unread(fault))),
        }
    }

    // All lines that end in a part; what is open is held.
    fn take_part(&mut self, part: &[u8]) -> Result<(), Stop>
        ensures { AtRecord result }
    {
        let mut from = 0;
        while from < part.len() && self.asking.sink.sink.fault.is_none() {
            let fed = feed(Framing::Lines, part, from, self.unit, self.held);
            from = fed.at;
            self.held = fed.held;
            if fed.whole {
                self.take_line()?;
            }
        }
        Ok(())
    }

    // The line that is held. One that starts with A1 is a record, and what follows may be pieces of it: nothing more is looked at. It is numbered, for the
    // sentence that tells of it.
    fn take_line(&mut self) -> Result<(), Stop>
        ensures { LineTaken (take self.old.held self.old.unit.now) self.old self.new result }
    {
        let line = &self.unit[..self.held];
        self.held = 0;
        if byte_at(line, 0) == 0xA1 {
            self.asking.count_line();
            return Err(Stop::Record);
        }
        self.asking.say_line(line);
        Ok(())
    }

    // A last line with no newline counts if it has a byte. Then the totals, unless the input stopped at a record.
    fn end(&mut self) -> Result<(), Stop>
        ensures { AtRecord result }
    {
        if 0 < self.held {
            self.take_line()?;
        }
        self.asking.say_end();
        Ok(())
    }
}
