// The next unit that is cut off the input.
ghost use Rattle.std.specs.Prelude.{◌≡◌, true, ◌≤◌, ◌<◌, length};
ghost use Rattle.units.specs.declared.Framing.TheVariants.{Both};
ghost use Rattle.units.specs.Kept.{is_kept};
ghost use Rattle.units.specs.Feeding.{text_length};
ghost use Rattle.moving.specs.Steps.{is_cut};

use filters::Run;
use units::{Fed, Framing, Unit, feed_on};

// The part's bytes up to the end of the next unit of lines and records.
pub fn next_unit(run: Run, part: &[u8], unit: &mut [u8]) -> Fed
    requires { (run.from < length part.now) × (is_kept Both unit.old run.state.held run.state.passed ≡ true) }
    ensures fits { text_length result.unit ≤ length unit.new }
    ensures kept { is_kept Both unit.new result.state.held result.state.passed ≡ true }
    ensures on { (run.from < result.at) × (result.at ≤ length part.now) }
{
    feed_on(Framing::Both, run.state, part, run.from, unit)
}

// In the other cases no unit has ended.
#[tactic(auto, unfolding(crate::specs::Steps::is_cut))]
pub fn is_cut(cut: Unit) -> bool
    ensures { result ≡ is_cut cut }
{
    matches!(cut, Unit::Text(_) | Unit::Long | Unit::Cut)
}
