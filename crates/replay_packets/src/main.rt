// Answers groups of standard input, a book and packets over it. A group starts with three numbers of four bytes each, low byte first: the
// length of the book, that of the names to ask for, and how many packets follow. Then come the book, the names, each behind its length in one
// byte, and the packets, each behind two such numbers, its length and the places lent: the kind byte and the dwords, four bytes each, low
// byte first. For each packet it writes a row with every answer, or the number that refuses it.
#![tactic(auto)]

ghost use Rattle.std.specs.Prelude.{◌≤◌, length};
ghost use Rattle.oracle_line_rows.specs.Lent.{RowsKept};

use channel::streams::streams_of;
use oracle_line_rows::rows::Rows;
use oracle_packet_rows::put_answer;
use tlv::{byte_at, four_at};

fn main(rt: HostRuntime) {
    let mut book = [0u8; 65536];
    let mut names = [0u8; 65536];
    let mut out = [0u8; 65536];
    Rows::new(streams_of(&rt), &mut out).answer_all(|rows| answer_group(
        rows, &mut book, &mut names,
    ));
}

// What is longer than its buffer, or cut short, ends the run.
fn answer_group(rows: &mut Rows, book: &mut [u8], names: &mut [u8]) -> Option<()>
    ensures { RowsKept rows.old rows.new }
{
    let head = rows.read::<12>()?;
    let book = book.get_mut(..four_at(&head, 0) as usize)?;
    rows.fill(book)?;
    let names = names.get_mut(..four_at(&head, 4) as usize)?;
    rows.fill(names)?;
    for _ in 0..four_at(&head, 8) {
        answer_packet(rows, book, names)?;
    }
    Some(())
}

fn answer_packet(rows: &mut Rows, book: &[u8], names: &[u8]) -> Option<()>
    ensures { RowsKept rows.old rows.new }
{
    let mut room = [0u8; 4096];
    let mut dwords = [0u32; 1024];
    let mut places = [0u32; 1024];
    let head = rows.read::<8>()?;
    let body = room.get_mut(..four_at(&head, 0) as usize)?;
    rows.fill(body)?;
    let count = read_dwords(body, &mut dwords);
    let lent = places.len().min(four_at(&head, 4) as usize);
    // A row has half of the output's buffer.
    rows.make_room(32_768);
    put_answer(
        &mut rows.page,
        byte_at(body, 0),
        book,
        names,
        &dwords[..count],
        &mut places[..lent],
    );
    Some(())
}

// The dwords behind the kind byte; how many there are.
fn read_dwords(body: &[u8], dwords: &mut [u32]) -> usize
    ensures { result ≤ length dwords.old }
{
    let count = dwords.len().min(body.len() / 4);
    for i in 0..count {
        dwords[i] = four_at(body, 4 * i + 1);
    }
    count
}
