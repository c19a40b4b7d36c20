// What a replaying program reads and writes: frames of standard input, and the rows that answer them, which wait on a page to be written.
ghost use Rattle.std.specs.Prelude.{◌≡◌, ◌+◌, ◌≤◌, length};
ghost use Rattle.oracle_line_rows.specs.Lent.{RowsKept};

use channel::reading::read_whole;
use channel::streams::Streams;
use channel::writing::write_whole;
use print::page::Page;

#[derive(Drop)]
pub struct Rows<'a> {
    streams: Streams,
    pub page: Page<'a>,
}

impl<'a> Rows<'a> {
    pub fn new(streams: Streams, out: &'a mut [u8]) -> Rows<'a>
        ensures same { result.page.out.ghost_name ≡ out.entry.ghost_name }
        ensures bytes { result.page.out.now ≡ out.old }
        ensures at { result.page.at ≡ 0 }
    {
        Rows {
            streams,
            page: Page::new(out),
        }
    }

    // Frame after frame until one is not there or cannot be answered; then what waits is written. No input lasts for all the turns.
    pub fn answer_all<F: FnMut(&mut Rows<'a>) -> Option<()>>(mut self, mut answer: F)
        requires { F.IsAlwaysCallable answer }
    {
        for _ in 0..u64::MAX {
            if answer(&mut self).is_none() {
                break;
            }
        }
        self.write();
    }

    // The buffer filled from the input; nothing where the input ends before, or a read fails.
    pub fn fill(&mut self, buffer: &mut [u8]) -> Option<()>
        ensures { RowsKept self.old self.new }
    {
        match read_whole(&mut self.streams.input, buffer) {
            Ok(n) if n == buffer.len() => Some(()),
            _ => None,
        }
    }

    // So many bytes of the input.
    pub fn read<const N: usize>(&mut self) -> Option<[u8; N]>
        ensures { RowsKept self.old self.new }
    {
        let mut bytes = [0u8; N];
        self.fill(&mut bytes)?;
        Some(bytes)
    }

    // Room on the page for the next row; what stands on it is written before, once less than so much is left.
    pub fn make_room(&mut self, room: usize)
        ensures kept { RowsKept self.old self.new }
        ensures room { room ≤ length self.new.page.out.now → self.new.page.at + room ≤ length self.new.page.out.now }
    {
        if self.page.out.len() - self.page.at < room {
            self.write();
        }
    }

    fn write(&mut self)
        ensures kept { RowsKept self.old self.new }
        ensures at { self.new.page.at ≡ 0 }
    {
        let _ = write_whole(&mut self.streams.output, self.page.text());
        self.page.at = 0;
    }
}
