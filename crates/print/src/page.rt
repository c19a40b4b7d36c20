// A page: a lent buffer, and the place in it where the next text is put.
ghost use Rattle.std.specs.Prelude.{◌≡◌, ◌≤◌, min, length, take};
ghost use Rattle.text.specs.Decimal.{decimal_text};
ghost use Rattle.print.specs.Hex.{byte_text, hex_text, dword_text};

use crate::hex::{put_byte, put_dword, put_hex};
use crate::put::{put, put_decimal};

// What stands before the place was put or found; the place is in the buffer or at its end.
#[derive(Drop)]
pub struct Page<'a> {
    pub out: &'a mut [u8],
    pub at: usize,
    ghost inside: { at ≤ length out.now },
}

impl<'a> Page<'a> {
    ghost use Rattle.print.specs.Page.{Puts};

    // A page that begins where the buffer does.
    pub fn new(out: &'a mut [u8]) -> Page<'a>
        ensures same { result.out.ghost_name ≡ out.entry.ghost_name }
        ensures bytes { result.out.now ≡ out.old }
        ensures at { result.at ≡ 0 }
    {
        Page { out, at: 0 }
    }

    // A page that goes on at a place, or at the buffer's end where the place is behind it.
    pub fn from(out: &'a mut [u8], at: usize) -> Page<'a>
        ensures same { result.out.ghost_name ≡ out.entry.ghost_name }
        ensures bytes { result.out.now ≡ out.old }
        ensures at { result.at ≡ min at (length out.old) }
    {
        let at = at.min(out.len());
        Page { out, at }
    }

    // What stands before the place.
    pub fn text(&self) -> &[u8]
        ensures { result.now ≡ take self.now.at self.now.out.now }
    {
        &self.out[..self.at]
    }

    // The bytes of a text: whole where they fit, else nothing.
    pub fn put(&mut self, s: &[u8])
        ensures { Puts self.old s.now self.new }
    {
        self.at = put(self.out, self.at, s);
    }

    // A number in decimal.
    pub fn put_decimal(&mut self, n: u64)
        ensures { Puts self.old (decimal_text n) self.new }
    {
        self.at = put_decimal(self.out, self.at, n);
    }

    // The bytes of a text, two hex digits each.
    pub fn put_hex(&mut self, s: &[u8])
        ensures { Puts self.old (hex_text s.now) self.new }
    {
        self.at = put_hex(self.out, self.at, s);
    }

    // A byte, two hex digits.
    pub fn put_byte(&mut self, b: u8)
        ensures { Puts self.old (byte_text b) self.new }
    {
        self.at = put_byte(self.out, self.at, b);
    }

    // A dword, eight hex digits.
    pub fn put_dword(&mut self, d: u32)
        ensures { Puts self.old (dword_text d) self.new }
    {
        self.at = put_dword(self.out, self.at, d);
    }
}
