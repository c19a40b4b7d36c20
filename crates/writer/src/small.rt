// The small writer: a lent record buffer, and the place of the next byte. Others call `put_record`, whose parameters are plain.
ghost use Rattle.std.specs.Prelude.{◌≡◌, ◌+◌, ◌*◌, ◌≤◌, ◌<◌, ◌++◌, length, map};
ghost use Rattle.entry.specs.Entry.{value_of};
ghost use Rattle.tlv.specs.Grammar.{All};
ghost use Rattle.record.specs.Grammar.{rows_of, dwords_bytes};
ghost use Rattle.writer.specs.Item.{body_of, row_of, Short, head_bytes, row_bytes, rows_bytes};
ghost use Rattle.writer.specs.Put.{Put};
ghost use Rattle.writer.specs.Small.{Appended};

use crate::item::{Item, Row, rows_of};
use crate::put::put;
use entry::Entry;

#[derive(Drop)]
pub struct Writer<'a> {
    pub out: &'a mut [u8],
    pub at: usize,
}

impl<'a> Writer<'a> {
    // A writer at the start of the buffer.
    fn new(out: &'a mut [u8]) -> Writer<'a>
        ensures same_reference { result.out.ghost_name ≡ out.entry.ghost_name }
        ensures starts { (result.out ≡ out.entry) × (result.at ≡ 0) }
    {
        Writer { out, at: 0 }
    }

    // Bytes behind what was written.
    fn put(&mut self, bytes: &[u8])
        requires { self.old.at + length bytes.now ≤ length self.old.out.now }
        ensures { Appended self.old bytes.now self.new }
    {
        self.at = put(self.out, self.at, bytes);
    }

    // A tag and a two-byte length, low byte first.
    #[tactic(auto, unfolding(crate::specs::Item::head_bytes))]
    fn put_head(&mut self, tag: u8, size: usize)
        requires { (size < 65536) × (self.old.at + 3 ≤ length self.old.out.now) }
        ensures { Appended self.old (head_bytes tag size) self.new }
    {
        self.put(&[tag, (size % 256) as u8, (size / 256) as u8]);
    }

    // Dwords, 4 bytes each.
    fn put_dwords(&mut self, dwords: &[u32])
        requires { self.old.at + 4 * length dwords.now ≤ length self.old.out.now }
        ensures { Appended self.old (dwords_bytes dwords.now) self.new }
    {
        for d in dwords {
            self.put(&d.to_le_bytes());
        }
    }

    // A field's body.
    fn put_body(&mut self, item: Item)
        requires { self.old.at + length (body_of item) ≤ length self.old.out.now }
        ensures { Appended self.old (body_of item.entry) self.new }
    {
        match item {
            Item::Text(s) => self.put(s),
            Item::Number(width, n) => self.put(&n.to_le_bytes()[..width.bytes()]),
            Item::Dwords(dwords) => self.put_dwords(dwords),
        }
    }

    // A field, nothing where it is absent.
    fn put_row(&mut self, row: Row)
        requires { Short (row_of row) × (self.old.at + length (row_bytes (row_of row)) ≤ length self.old.out.now) }
        ensures { Appended self.old (row_bytes (row_of row.entry)) self.new }
    {
        if let Some(item) = row.item {
            self.put_head(row.tag, item.size());
            self.put_body(item);
        }
    }

    // Fields, one behind the other.
    fn put_rows(&mut self, rows: &[Row])
        requires { All Short (map row_of rows.now) × (self.old.at + length (rows_bytes (map row_of rows.now)) ≤ length self.old.out.now) }
        ensures { Appended self.old (rows_bytes (map row_of rows.now)) self.new }
    {
        for row in rows {
            self.put_row(*row);
        }
    }
}

// The record of an entry whose fields take so many bytes, from the start of the buffer: no writer is seen from outside.
pub fn put_record(out: &mut [u8], size: usize, text: &[u8], e: Entry, dwords: &[u32]) -> usize
    requires { (size < 65536)
        × ((e.task_len < 65536) × (e.function_len < 65536) × (4 * e.dwords < 65536))
        × (3 + length (rows_bytes (rows_of (value_of e text.now dwords.now))) ≤ length out.old) }
    ensures { Put out.old 0 (head_bytes 0xA1 size ++ rows_bytes (rows_of (value_of e text.now dwords.now))) result out.new }
{
    let rows = rows_of(text, e, dwords);
    let mut w = Writer::new(out);
    w.put_head(0xA1, size);
    w.put_rows(&rows);
    w.at
}
