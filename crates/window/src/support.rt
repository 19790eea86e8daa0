// Support of a reading: the readings near it, and how many it needs.
ghost use Rattle.std.specs.Prelude.{◌≡◌, ◌-ℤ◌};
ghost use Rattle.window.specs.Support.{near, needed};

use units::Millivolts;

// No difference of two readings overflows 64 bits (DECISIONS, 49).
fn difference(a: Millivolts, b: Millivolts) -> i64
    ensures { result ≡ a.0 -ℤ b.0 }
{
    i64::from(a.0) - i64::from(b.0)
}

// Two readings differ by at most 200 mV.
#[tactic(auto, using(crate::proofs::Sizes::at_most_200), unfolding(crate::specs::Support::near))]
pub fn near(a: Millivolts, b: Millivolts) -> bool
    ensures { result ≡ near a.0 b.0 }
{
    (-200..=200).contains(&difference(a, b))
}

// How many supporters a reading needs in a window of n readings (DECISIONS, 8).
#[tactic(auto, unfolding(crate::specs::Support::needed))]
pub fn needed(n: usize) -> usize
    ensures { result ≡ needed n }
{
    8
}
