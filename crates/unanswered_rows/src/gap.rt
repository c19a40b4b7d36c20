// The time between two lines in microseconds.
ghost use Rattle.std.specs.Prelude.{◌≡◌};
ghost use Rattle.unanswered_rows.specs.Gap.{gap_of, most64, micros_of};

// A time: seconds and microseconds, of which a line may have a million or more.
#[derive(Clone, Copy, Debug, PartialEq, Eq, Hash)]
pub struct Moment {
    pub seconds: u64,
    pub microseconds: u64,
}

// The second time is so many microseconds after the first, or before it. A gap past 64 bits is 2^64 - 1.
#[derive(Clone, Copy, Debug, PartialEq, Eq, Hash)]
pub enum Gap {
    After(u64),
    Before(u64),
}

impl Gap {
    #[tactic(auto, unfolding(crate::specs::Gap::gap_of))]
    pub fn between(first: Moment, second: Moment) -> Gap
        ensures { result ≡ gap_of first second }
    {
        let a = first.micros();
        let b = second.micros();
        if b < a {
            Gap::Before(most64(a - b))
        } else {
            Gap::After(most64(b - a))
        }
    }
}

impl Moment {
    // In microseconds. Seconds that would pass 64 bits stop there; no line has so many.
    #[tactic(auto, unfolding(crate::specs::Gap::micros_of))]
    fn micros(self) -> u128
        ensures { result ≡ micros_of self }
    {
        let seconds = self.seconds.saturating_add(self.microseconds / 1_000_000);
        seconds as u128 * 1_000_000 + (self.microseconds % 1_000_000) as u128
    }
}

fn most64(n: u128) -> u64
    ensures { result ≡ most64 n }
{
    u64::try_from(n).unwrap_or(u64::MAX)
}
