// What a number is called, and how wide it may be.
ghost use Rattle.std.specs.Prelude.{◌≡◌};
ghost use Rattle.listing_rows.specs.Rows.{Room};
ghost use Rattle.reasons.specs.Reasons.{name_of};
ghost use Rattle.unanswered_rows.specs.Parts.{PartOn};
ghost use Rattle.why_rows.specs.Names.{name_text, piece_text, bits_of, key_bits};

use crate::What;
use print::page::Page;
use reasons::Key;
use unanswered_rows::parts::{put_number, put_text};

#[tactic(auto, using(unanswered_rows::proofs::Joining::on_longer), unfolding(crate::specs::Names::name_text))]
pub fn put_name(page: &mut Page, what: What)
    requires { Room page.old 34 }
    ensures { PartOn page.old (name_text what) page.new 34 }
{
    match what {
        What::Key(key) => put_key(page, key),
        What::Piece(i) => put_piece(page, i),
    }
}

fn put_key(page: &mut Page, key: Key)
    requires { Room page.old 6 }
    ensures { PartOn page.old (name_of key) page.new 6 }
{
    put_text(page, key.name());
}

fn put_piece(page: &mut Page, i: u64)
    requires { Room page.old 34 }
    ensures { PartOn page.old (piece_text i) page.new 34 }
{
    put_number(page, b"piece ", i);
    put_text(page, b" of data");
}

impl What {
    #[tactic(auto, unfolding(crate::specs::Names::bits_of))]
    pub fn bits(self) -> u64
        ensures { result ≡ bits_of self }
    {
        match self {
            What::Key(key) => key_bits(key),
            What::Piece(_) => 32,
        }
    }
}

#[tactic(auto, unfolding(crate::specs::Names::key_bits))]
fn key_bits(key: Key) -> u64
    ensures { result ≡ key_bits key }
{
    match key {
        Key::Route => 64,
        Key::Offset => 16,
        Key::Error | Key::Config | Key::Unplug => 8,
    }
}
