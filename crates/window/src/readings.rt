// The range of a window's readings.
ghost use Rattle.std.specs.Prelude.{◌≡◌};
ghost use Rattle.window.specs.Evaluation.{reading_allowed, all_allowed};

use units::{Millivolts, Quantity};

// A reading is -15,000 to 15,000 mV.
#[tactic(auto, unfolding(units::specs::Range::within))]
fn allowed(reading: Millivolts) -> bool
    ensures { result ≡ reading_allowed reading.0 }
{
    reading.within(Millivolts(-15000), Millivolts(15000))
}

// Every reading of the window is -15,000 to 15,000 mV.
pub fn all_allowed(window: &[i32]) -> bool
    ensures { result ≡ all_allowed window.now }
{
    window.iter().all(|reading| allowed(Millivolts(*reading)))
}
