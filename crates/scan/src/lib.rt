// A trace line to its entry, or the one number that says why not.
#![tactic(auto)]

pub mod body;
pub mod dwords;
pub mod frame;
pub mod head;

ghost use Rattle.std.specs.Prelude.{◌≡◌, ◌+◌, ◌^◌, ◌≤◌, ◌<◌, length};
ghost use Rattle.text.specs.Table.{table};
ghost use Rattle.scan.specs.Parse.{Parsed, PartedRead, PayloadRead, entry_of};

use crate::body::{Body, Optionals, read_body};
use crate::dwords::read_data;
use crate::frame::read_frame;
use crate::head::{Head, read_head};
use entry::Entry;
use pairs::keys::DATA;
use refusal::Refusal;
use text::class::Class;
use text::run::{run_end, run_start, strip};
use walk::last::last_pairs;

// What becomes of a line with a piece of `data` that is not 32-bit hex: strict refuses it (18), lenient leaves the piece out.
#[derive(Clone, Copy)]
pub enum Pieces {
    Strict,
    Lenient,
}

// The entry of a line, its dwords in the first slots; or the first number that applies, with no slot touched. The entry's task and
// function are places in this line.
pub fn parse(line: &[u8], pieces: Pieces, slots: &mut [u32]) -> Result<Entry, Refusal>
    ensures { Parsed pieces line.now slots.old slots.new result }
{
    let colon = read_frame(line)?;
    parse_parted(line, colon, pieces, slots)
}

// The line parted at its last colon: the header first, stripped here because where it starts is asked for too, and a second look at its blanks took 7 %
// of a line's time.
fn parse_parted(
    line: &[u8],
    colon: usize,
    pieces: Pieces,
    slots: &mut [u32],
) -> Result<Entry, Refusal>
    requires { colon < length line.now }
    ensures { PartedRead pieces line.now colon slots.old slots.new result }
{
    let front = &line[..colon];
    let start = run_end(front, Class::Blank, 0);
    let rest = &front[start..];
    let size = run_start(rest, Class::Blank);
    let header = &rest[..size];
    let head = read_head(header)?;
    let payload = strip(&line[colon + 1..]);
    parse_payload(header, start, head, payload, pieces, slots)
}

// Then the payload. The table of byte classes is written out here, once a line, and lent to all that read the payload. That it is `table`, entry by
// entry, is computed.
fn parse_payload(
    header: &[u8],
    start: usize,
    head: Head,
    payload: &[u8],
    pieces: Pieces,
    slots: &mut [u32],
) -> Result<Entry, Refusal>
    requires { (head.function ≤ length header.now) × (start + length header.now < 2 ^ 64) }
    ensures { PayloadRead pieces header.now start head payload.now slots.old slots.new result }
{
    let t =
        b"\xff\xff\xff\xff\xff\xff\xff\xff\xff\xff\xff\xff\xff\xff\xff\xff\xff\xff\xff\xff\xff\xff\xff\xff\xff\xff\xff\xff\xff\xff\xff\xff\xff\xff\xff\xff\xff\xff\xff\xff\xff\xff\xff\xff\xff\xff\xff\xff\x00\x01\x02\x03\x04\x05\x06\x07\x08\x09\xff\xff\xff\xff\xff\xff\xff\x0a\x0b\x0c\x0d\x0e\x0f\x80\x80\x80\x80\x80\x80\x80\x80\x80\x80\x80\x80\x80\x80\x80\x80\x80\x80\x80\x80\xff\xff\xff\xff\x80\xff\x0a\x0b\x0c\x0d\x0e\x0f\x80\x80\x80\x80\x80\x80\x80\x80\x80\x80\x80\x80\x80\x80\x80\x80\x80\x80\x80\x80\xff\xff\xff\xff\xff\xff\xff\xff\xff\xff\xff\xff\xff\xff\xff\xff\xff\xff\xff\xff\xff\xff\xff\xff\xff\xff\xff\xff\xff\xff\xff\xff\xff\xff\xff\xff\xff\xff\xff\xff\xff\xff\xff\xff\xff\xff\xff\xff\xff\xff\xff\xff\xff\xff\xff\xff\xff\xff\xff\xff\xff\xff\xff\xff\xff\xff\xff\xff\xff\xff\xff\xff\xff\xff\xff\xff\xff\xff\xff\xff\xff\xff\xff\xff\xff\xff\xff\xff\xff\xff\xff\xff\xff\xff\xff\xff\xff\xff\xff\xff\xff\xff\xff\xff\xff\xff\xff\xff\xff\xff\xff\xff\xff\xff\xff\xff\xff\xff\xff\xff\xff\xff\xff\xff\xff\xff\xff\xff\xff\xff\xff\xff\xff";
    read_payload(header, start, head, payload, t, pieces, slots)
}

// What the payload says, and what both say together.
fn read_payload(
    header: &[u8],
    start: usize,
    head: Head,
    payload: &[u8],
    t: &[u8; 256],
    pieces: Pieces,
    slots: &mut [u32],
) -> Result<Entry, Refusal>
    requires { (head.function ≤ length header.now) × (start + length header.now < 2 ^ 64) × (t.now ≡ table) }
    ensures { PayloadRead pieces header.now start head payload.now slots.old slots.new result }
{
    let last = last_pairs(payload, t);
    let body = read_body(payload, &header[head.function..], &last)?;
    let dwords = read_data(payload, t, last.part(DATA), pieces, slots)?;
    Ok(assemble(start, header.len(), head, body, dwords))
}

// The task starts the header and the function ends it.
fn assemble(start: usize, size: usize, head: Head, body: Body, dwords: usize) -> Entry
    requires { (head.function ≤ size) × (start + size < 2 ^ 64) }
    ensures { result ≡ entry_of start size head body dwords }
{
    let Optionals {
        offset,
        code,
        len,
        port,
        config,
        seq,
        unplug,
    } = body.optionals;
    Entry {
        task_at: start,
        task_len: head.task,
        pid: head.pid,
        cpu: head.cpu,
        seconds: head.seconds,
        microseconds: head.microseconds,
        function_at: start + head.function,
        function_len: size - head.function,
        kind: body.kind,
        size: body.size,
        dropped: body.dropped,
        domain: body.domain,
        route: body.route,
        offset,
        code,
        len,
        port,
        config,
        seq,
        unplug,
        dwords,
    }
}
