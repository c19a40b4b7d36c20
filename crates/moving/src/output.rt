// What waits to be written.
ghost use Rattle.std.specs.Prelude.{◌≡◌, length, take};
ghost use Rattle.moving.specs.Steps.{Roomy, OutRoom, ToldRoom, Outcome, OutWritten, ToldWritten, Drained};

use crate::moving::Moving;
use crate::program::Program;
use channel::fault::Fault;
use channel::writing::write_whole;
use std::io;

impl<'a> Moving<'a> {
    // Room for what one unit may put out, and for what is told of it.
    pub(crate) fn make_room(&mut self, program: Program)
        ensures { Roomy program self.old self.new }
    {
        self.out_room(program);
        self.told_room();
    }

    // What waits is written where there is less room; after a write that failed it is let go, and that fault stays.
    fn out_room(&mut self, program: Program)
        ensures { OutRoom program self.old self.new }
    {
        if self.out.len() - self.run.at < 5400 {
            if self.unwritten.is_some() {
                self.run.at = 0;
            } else {
                self.write_out(program);
            }
        }
    }

    fn told_room(&mut self)
        ensures { ToldRoom self.old self.new }
    {
        if self.told.len() - self.run.told < 400 {
            self.write_told();
        }
    }

    // All that waits; after a write to standard output that failed nothing.
    pub(crate) fn drain(&mut self, program: Program)
        ensures { Drained program self.old self.new }
    {
        if self.unwritten.is_some() {
            return;
        }
        self.write_out(program);
        if self.unwritten.is_some() {
            return;
        }
        self.write_told();
    }

    fn waiting(&self) -> &[u8]
        ensures { result.now ≡ take self.now.run.at self.now.out.now }
    {
        &self.out[..self.run.at]
    }

    fn telling(&self) -> &[u8]
        ensures { result.now ≡ take self.now.run.told self.now.told.now }
    {
        &self.told[..self.run.told]
    }

    fn write_out(&mut self, program: Program)
        ensures { OutWritten program self.old self.new }
    {
        let mut to = self.to.output;
        let (bytes, fault) = write_front(&mut to, self.waiting());
        let whole = program.whole_in(&self.waiting()[..bytes]);
        self.run.at = 0;
        self.whole = self.whole.saturating_add(whole);
        self.unwritten = fault;
    }

    // Told are refused units, and the totals of `pack`. They are told where they can be: a program goes on without, and its status says so.
    fn write_told(&mut self)
        ensures { ToldWritten self.old self.new }
    {
        let mut to = self.to.error;
        let (_, fault) = write_front(&mut to, self.telling());
        self.run.told = 0;
        if fault.is_some() {
            self.untold = true;
        }
    }
}

// How many bytes were written, and why no more.
fn write_front<W: io::Write>(to: &mut W, buf: &[u8]) -> (usize, Option<Fault>)
    ensures { Outcome (length buf.now) result.0 result.1 }
{
    match write_whole(to, buf) {
        Ok(bytes) => (bytes, None),
        Err(cut) => (cut.bytes, Some(cut.fault)),
    }
}
