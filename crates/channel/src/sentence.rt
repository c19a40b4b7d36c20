// One sentence on standard error, written by one call.
ghost use Rattle.print.specs.Put.{Placed};
ghost use Rattle.channel.specs.Sentence.{Laid, reason_of, failed_parts, count_parts};

use crate::writing::write_whole;
use print::page::Page;
use print::put::{put, put_decimal};
use std::io::Stderr;

// `WHO: WHAT failed (error N: REASON)`, and how many units were written whole.
pub fn tell_fault(to: Stderr, who: &[u8], what: &[u8], errno: u32, units: &[u8], whole: u64) {
    let mut text = [0u8; 256];
    let end = put_failed(&mut text, 0, who, what, errno);
    let behind = put_count(&mut text, end, units, whole);
    tell_page(to, &mut Page::from(&mut text, behind));
}

// `WHO: WHAT failed (error N: REASON)` alone.
pub fn tell_failed(to: Stderr, who: &[u8], what: &[u8], errno: u32) {
    let mut text = [0u8; 256];
    let end = put_failed(&mut text, 0, who, what, errno);
    tell_page(to, &mut Page::from(&mut text, end));
}

// A number between two texts.
pub fn tell_numbered(to: Stderr, before: &[u8], n: u64, behind: &[u8]) {
    let mut text = [0u8; 256];
    let mut page = Page::new(&mut text);
    page.put(before);
    page.put_decimal(n);
    page.put(behind);
    tell_page(to, &mut page);
}

// A sentence that cannot be told is not: there is nowhere to say so.
pub fn tell(mut to: Stderr, sentence: &[u8]) {
    let _ = write_whole(&mut to, sentence);
}

fn tell_page(to: Stderr, page: &mut Page) {
    page.put(b"\n");
    tell(to, page.text());
}

pub fn put_failed(out: &mut [u8], at: usize, who: &[u8], what: &[u8], errno: u32) -> usize
    ensures { Laid out.old at (failed_parts who.now what.now errno) out.new result }
{
    let a = put(out, at, who);
    let b = put(out, a, b": ");
    let c = put(out, b, what);
    let d = put(out, c, b" failed (error ");
    let e = put_decimal(out, d, errno as u64);
    let f = put_reason(out, e, errno);
    put(out, f, b")")
}

pub fn put_count(out: &mut [u8], at: usize, units: &[u8], whole: u64) -> usize
    ensures { Laid out.old at (count_parts units.now whole) out.new result }
{
    let a = put(out, at, b"; ");
    let b = put(out, a, units);
    let c = put(out, b, b" written whole: ");
    put_decimal(out, c, whole)
}

// The reason behind a number, where it has words here.
#[tactic(auto, unfolding(crate::specs::Sentence::reason_of))]
fn put_reason(out: &mut [u8], at: usize, errno: u32) -> usize
    ensures { Placed out.old at (reason_of errno) out.new result }
{
    match errno {
        1 => put(out, at, b": it is not permitted"),
        2 => put(out, at, b": there is no such file"),
        5 => put(out, at, b": the device failed"),
        9 => put(out, at, b": it is closed"),
        12 => put(out, at, b": no memory is left"),
        13 => put(out, at, b": it may not be read"),
        20 => put(out, at, b": a part of the path is no directory"),
        21 => put(out, at, b": it is a directory"),
        22 => put(out, at, b": it cannot be used so"),
        27 => put(out, at, b": the file would be too large"),
        28 => put(out, at, b": no space is left"),
        32 => put(out, at, b": nobody reads it"),
        36 => put(out, at, b": the name is too long"),
        40 => put(out, at, b": too many links lead to it"),
        _ => put(out, at, b""),
    }
}
