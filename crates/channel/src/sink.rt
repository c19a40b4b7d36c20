// Standard output through a buffer: texts wait there until there is no room for the next one.
ghost use Rattle.std.specs.Prelude.{◌≡◌, ◌+◌, ◌≤◌, ◌<◌, min, None, length};
ghost use Rattle.channel.specs.Moving.{Written};
ghost use Rattle.channel.specs.Sink.{rows_in, Counted, Passed, Flushed, Waits, Said, FlushedThrough, SaidThrough};

use crate::fault::Fault;
use crate::writing::{Cut, write_whole};
use print::put::put;
use std::io::Stdout;

// How much waits in the buffer, how many rows were written whole so far, and the fault of the write that failed.
#[derive(Clone, Copy)]
pub struct Sink {
    pub at: usize,
    pub whole: u64,
    pub fault: Option<Fault>,
}

// Puts a text behind what waits; where there is no room, what waits is written first. After a write that failed nothing is put or written.
pub fn say(to: Stdout, out: &mut [u8], sink: Sink, text: &[u8]) -> Sink
    ensures { Said out.old sink text.now out.new result }
{
    if sink.fault.is_some() {
        return sink;
    }
    let at = sink.at.min(out.len());
    if text.len() <= out.len() - at {
        return wait(out, sink.whole, at, text);
    }
    say_anew(to, out, sink, text)
}

// The same where there is no room behind what waits. A call of its own: it is seldom made, and compiled in it made each word dearer.
#[inline(never)]
fn say_anew(to: Stdout, out: &mut [u8], sink: Sink, text: &[u8]) -> Sink
    requires { (sink.fault ≡ None) × (length out.old < min sink.at (length out.old) + length text.now) }
    ensures { Said out.old sink text.now out.new result }
{
    let clear = flush(to, out, sink);
    if clear.fault.is_some() {
        return clear;
    }
    if out.len() < text.len() {
        return pass(to, text, clear.whole);
    }
    wait(out, clear.whole, 0, text)
}

// Writes what waits.
pub fn flush(to: Stdout, out: &[u8], sink: Sink) -> Sink
    ensures { Flushed out.now sink result }
{
    if sink.fault.is_some() {
        return sink;
    }
    let at = sink.at.min(out.len());
    pass(to, &out[..at], sink.whole)
}

fn wait(out: &mut [u8], whole: u64, at: usize, text: &[u8]) -> Sink
    requires { at + length text.now ≤ length out.old }
    ensures { Waits out.old at text.now out.new whole result }
{
    let at = put(out, at, text);
    Sink {
        at,
        whole,
        fault: None,
    }
}

// Writes a text, and counts the rows that it ends.
fn pass(mut to: Stdout, text: &[u8], whole: u64) -> Sink
    ensures { Passed text.now whole result }
{
    let wrote = write_whole(&mut to, text);
    count(text, whole, wrote)
}

// Counts the rows that end in what was written of a text.
fn count(text: &[u8], whole: u64, wrote: Result<usize, Cut>) -> Sink
    requires { Written (length text.now) wrote }
    ensures { Counted text.now whole wrote result }
{
    match wrote {
        Ok(_) => Sink {
            at: 0,
            whole: whole.saturating_add(rows_in(text)),
            fault: None,
        },
        Err(cut) => Sink {
            at: 0,
            whole: whole.saturating_add(rows_in(&text[..cut.bytes])),
            fault: Some(cut.fault),
        },
    }
}

// How many rows end in a text: its newlines.
#[tactic(auto, using(crate::proofs::Sinks::rows_are))]
pub fn rows_in(text: &[u8]) -> u64
    ensures { result ≡ rows_in text.now }
{
    text.iter().filter(|b| **b == b'\n').count() as u64
}

// Standard output behind a lent buffer, and what waits there.
#[derive(Drop)]
pub struct Outlet<'a> {
    pub to: Stdout,
    pub out: &'a mut [u8],
    pub sink: Sink,
}

impl<'a> Outlet<'a> {
    // An outlet in which nothing waits.
    pub fn new(to: Stdout, out: &'a mut [u8]) -> Outlet<'a>
        ensures same { result.out.ghost_name ≡ out.entry.ghost_name }
        ensures bytes { result.out.now ≡ out.old }
        ensures to { result.to ≡ to }
        ensures at { result.sink.at ≡ 0 }
        ensures whole { result.sink.whole ≡ 0 }
        ensures fault { result.sink.fault ≡ None }
    {
        let sink = Sink {
            at: 0,
            whole: 0,
            fault: None,
        };
        Outlet { to, out, sink }
    }

    // Puts a text behind what waits; where there is no room, what waits is written first. After a write that failed nothing is put or written.
    pub fn say(&mut self, text: &[u8])
        ensures { SaidThrough self.old text.now self.new }
    {
        self.sink = say(self.to, self.out, self.sink, text);
    }

    // Writes what waits.
    pub fn flush(&mut self)
        ensures { FlushedThrough self.old self.new }
    {
        self.sink = self.flushed();
    }

    // The sink that is left. The buffer is read as it stands behind `&self`, so it is known to stay as found.
    fn flushed(&self) -> Sink
        ensures { Flushed self.now.out.now self.now.sink result }
    {
        flush(self.to, self.out, self.sink)
    }
}
