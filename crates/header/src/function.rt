// The function: the word that ends the header.
ghost use Rattle.std.specs.Prelude.{◌≡◌};
ghost use Rattle.header.specs.Function.{function_of};

use text::class::Class;
use text::place::byte_before;
use text::run::run_start;

// Where the word run that ends the header starts, if blanks stand before it and a colon before them.
#[tactic(auto, unfolding(crate::specs::Function::function_of, text::specs::Class::in_class))]
pub fn parse_function(h: &[u8]) -> Option<usize>
    ensures { result ≡ function_of h.now }
{
    let word = run_start(h, Class::Word);
    let blank = run_start(&h[..word], Class::Blank);
    (word < h.len() && blank < word && byte_before(h, blank) == b':').then_some(word)
}
