// Where a program stands between two parts of its input, and its steps.
ghost use Rattle.std.specs.Prelude.{◌≡◌, ◌≤◌, length, None};
ghost use Rattle.units.specs.Feeding.{text_length};
ghost use Rattle.channel.specs.Moving.{Read};

use crate::cut::{is_cut, next_unit};
use crate::program::Program;
use channel::fault::{Fault, NO_REASON};
use channel::reading::read_some;
use channel::sentence::tell_fault;
use channel::sink::{Outlet, Sink};
use channel::status::Status;
use channel::streams::Streams;
use filters::{Counts, Filter, Run, finish, take_some};
use scan::Pieces;
use shown::show_unit;
use std::process::ExitCode;
use units::{Framing, State, Unit};

// The run of the program, a filter's; how many rows or records were written whole; the fault of the write to standard output that failed; and
// whether one to standard error did. What waits lies in its buffer. Which program runs is handed on from call to call, and is no field here: so the
// compiler knows it, and leaves out of each program what the others do. Held here it made the listing take 1.3 times the time.
#[derive(Drop)]
pub struct Moving<'a> {
    pub to: Streams,
    pub book: &'a [u8],
    pub out: &'a mut [u8],
    pub told: &'a mut [u8],
    pub run: Run,
    pub whole: u64,
    pub unwritten: Option<Fault>,
    pub untold: bool,
    ghost at: { run.at ≤ length out.now },
    ghost told_at: { run.told ≤ length told.now },
    ghost out_size: { 5400 ≤ length out.now },
    ghost told_size: { 400 ≤ length told.now },
}

impl<'a> Moving<'a> {
    ghost use Rattle.std.specs.Process.{exit_status};
    ghost use Rattle.moving.specs.Steps.{Begun, Keeps, Lasting, Ready, Went, Filtered, Shown, Closed, ReadTaken, end_status};

    // Before the first read.
    pub fn new(to: Streams, book: &'a [u8], out: &'a mut [u8], told: &'a mut [u8]) -> Moving<'a>
        requires { (5400 ≤ length out.old) × (400 ≤ length told.old) }
        ensures { Begun result }
    {
        let run = Run {
            from: 0,
            state: State { held: 0, passed: 0 },
            at: 0,
            told: 0,
            counts: Counts::start(),
        };
        Moving {
            to,
            book,
            out,
            told,
            run,
            whole: 0,
            unwritten: None,
            untold: false,
        }
    }

    // Part after part to the end of the input; after a write that failed nothing more is read. No input lasts for all the turns.
    pub fn read_all(
        &mut self,
        program: Program,
        input: &mut [u8],
        unit: &mut [u8],
    ) -> Result<(), Fault>
        requires { Keeps program unit.old self.old }
        ensures { Lasting self.old self.new }
    {
        let mut from = self.to.input;
        for _ in 0..u64::MAX {
            let read = read_some(&mut from, input);
            if let Some(end) = self.take_read(program, read, input, unit) {
                return end;
            }
        }
        Err(NO_REASON)
    }

    // The part that was read, or the end; how the reading ends, where it does. A read that failed ends it with its fault, and nothing else is done.
    fn take_read(
        &mut self,
        program: Program,
        read: Result<Option<usize>, Fault>,
        input: &[u8],
        unit: &mut [u8],
    ) -> Option<Result<(), Fault>>
        requires read { Read (length input.now) read }
        requires kept { Keeps program unit.old self.old }
        ensures taken { ReadTaken read self.old self.new result }
        ensures kept { result ≡ None → Keeps program unit.new self.new }
        ensures lasting { Lasting self.old self.new }
    {
        match read {
            Ok(Some(n)) => {
                self.take_part(program, &input[..n], unit);
                self.unwritten.is_some().then_some(Ok(()))
            }
            Ok(None) => {
                self.end(program, unit);
                Some(Ok(()))
            }
            Err(fault) => Some(Err(fault)),
        }
    }

    // All of it, with room made where too little is left.
    fn take_part(&mut self, program: Program, part: &[u8], unit: &mut [u8])
        requires { Keeps program unit.old self.old }
        ensures kept { Keeps program unit.new self.new }
        ensures lasting { Lasting self.old self.new }
    {
        self.run.from = 0;
        while self.run.from < part.len() && self.unwritten.is_none() {
            self.make_room(program);
            self.step(program, part, unit);
        }
    }

    // Some of the part: what a filter takes, or up to the end of the next unit. The filter is chosen here, and in `end`, not by `Program::filter`: from
    // a call's answer the compiler does not know which it is, and keeps in the program what the others do.
    fn step(&mut self, program: Program, part: &[u8], unit: &mut [u8])
        requires ready { Ready (length part.now) self.old }
        requires kept { Keeps program unit.old self.old }
        ensures went { Went program (length part.now) self.old self.new }
        ensures filtered { Filtered program part.now unit.old self.old unit.new self.new }
        ensures kept { Keeps program unit.new self.new }
    {
        let run = self.run;
        let filter = match program {
            Program::Listing => Filter::Listing,
            Program::Pack(pieces) => Filter::Pack(pieces),
            Program::Unpack(pieces) => Filter::Unpack(pieces),
            Program::Show(pieces) => {
                let fed = next_unit(run, part, unit);
                self.run.from = fed.at;
                self.run.state = fed.state;
                self.show(fed.unit, unit, pieces);
                return;
            }
        };
        self.run = take_some(filter, part, unit, self.out, self.told, run);
    }

    // What is open still, and the totals. A last unit that has not ended counts if it has a byte.
    fn end(&mut self, program: Program, unit: &[u8])
        requires { Keeps program unit.now self.old }
        ensures lasting { Lasting self.old self.new }
        ensures closed { Closed program unit.now self.old self.new }
    {
        self.make_room(program);
        let run = self.run;
        let filter = match program {
            Program::Listing => Filter::Listing,
            Program::Pack(pieces) => Filter::Pack(pieces),
            Program::Unpack(pieces) => Filter::Unpack(pieces),
            Program::Show(pieces) => {
                let cut = units::finish(Framing::Both, run.state, unit);
                self.show(cut, unit, pieces);
                return;
            }
        };
        self.run = finish(filter, unit, self.out, self.told, run);
    }

    // What is shown of a unit that was cut off: nothing where none was, and after a write that failed. Asked for: that its bytes stand in the unit
    // buffer.
    fn show(&mut self, cut: Unit, unit: &[u8], pieces: Pieces)
        requires { text_length cut ≤ length unit.now }
        ensures { Shown cut self.old self.new }
    {
        if !is_cut(cut) {
            return;
        }
        let size = self.out.len();
        let units = self.run.counts.units.saturating_add(1);
        self.run.counts.units = units;
        if self.unwritten.is_some() {
            return;
        }
        let mut outlet = Outlet {
            to: self.to.output,
            out: self.out,
            sink: Sink {
                at: self.run.at,
                whole: self.whole,
                fault: self.unwritten,
            },
        };
        show_unit(&mut outlet, self.book, cut, unit, pieces, units);
        self.run.at = outlet.sink.at.min(size);
        self.whole = outlet.sink.whole;
        self.unwritten = outlet.sink.fault;
    }

    // One sentence for what kept the program from its work, and its status; success where all went well.
    pub fn tell_end(&self, program: Program, read: Result<(), Fault>) -> ExitCode
        ensures { exit_status result ≡ end_status self.now.unwritten read self.now.untold }
    {
        if let Some(fault) = self.unwritten {
            self.tell_fault(program, b"writing standard output", fault);
            return ExitCode::from(Status::Fault);
        }
        if let Err(fault) = read {
            self.tell_fault(program, b"reading standard input", fault);
            return ExitCode::from(Status::Fault);
        }
        if self.untold {
            return ExitCode::from(Status::Fault);
        }
        ExitCode::SUCCESS
    }

    fn tell_fault(&self, program: Program, what: &[u8], fault: Fault) {
        tell_fault(
            self.to.error,
            program.name(),
            what,
            fault.errno,
            program.units(),
            self.whole,
        );
    }
}
