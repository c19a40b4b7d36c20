// A book's name as it is shown: a name may have any byte below 128, and none of them may end a row or steer a terminal.
#![tactic(auto)]

ghost use Rattle.std.specs.Prelude.{◌≡◌, ◌*◌, length};
ghost use Rattle.print.specs.Page.{Puts};
ghost use Rattle.listing_rows.specs.Rows.{Room, PutOn};
ghost use Rattle.escape.specs.Escape.{is_plain, shown_byte, escaped};

use print::hex::digit;
use print::page::Page;

// The escaped name. Asked for: four bytes of room for each of its bytes, which its callers, `say_piece` of saying and `put_shown` of why_rows, make.
pub fn put_escaped(page: &mut Page, s: &[u8])
    requires { Room page.old (4 * length s.now) }
    ensures { PutOn page.old (escaped s.now) page.new }
{
    for b in s {
        put_shown(page, *b);
    }
}

#[tactic(auto, using(crate::proofs::Escaping::plain_shown, crate::proofs::Escaping::other_shown))]
fn put_shown(page: &mut Page, b: u8)
    ensures { Puts page.old (shown_byte b) page.new }
{
    if is_plain(b) {
        page.put(&[b]);
    } else {
        page.put(&[b'\\', b'x', digit(b / 16), digit(b % 16)]);
    }
}

#[tactic(auto, unfolding(crate::specs::Escape::is_plain))]
fn is_plain(b: u8) -> bool
    ensures { result ≡ is_plain b }
{
    b' ' <= b && b <= b'~' && b != b'\\'
}
