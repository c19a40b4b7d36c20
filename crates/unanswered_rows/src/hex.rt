// A number of 64 bits in hex digits, with no zero in front but for the number 0.
ghost use Rattle.std.specs.Prelude.{◌≡◌, ◌==◌, length, not, position};
ghost use Rattle.listing_rows.specs.Rows.{Room};
ghost use Rattle.unanswered_rows.specs.Parts.{zeros_in, route_text, PartOn};

use print::page::Page;

pub fn put_route(page: &mut Page, n: u64)
    requires { Room page.old 16 }
    ensures { PartOn page.old (route_text n) page.new 16 }
{
    let mut room = [0u8; 16];
    let mut digits = Page::new(&mut room);
    digits.put_dword((n / 0x1_0000_0000) as u32);
    digits.put_dword((n % 0x1_0000_0000) as u32);
    let text = digits.text();
    page.put(&text[zeros_end(text)..]);
}

// Where the zeros in front of sixteen digits end. The last digit is none of them.
fn zeros_end(digits: &[u8]) -> usize
    requires { length digits.now ≡ 16 }
    ensures { result ≡ zeros_in 15 digits.now }
{
    other_digit(digits).unwrap_or(15)
}

fn other_digit(digits: &[u8]) -> Option<usize>
    ensures { result ≡ position (λ b. not (b == 48)) digits.now }
{
    digits.iter().position(|b| *b != b'0')
}
