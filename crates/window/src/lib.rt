#![tactic(auto)]
// A window of readings to the high and the low level. A level needs support: one stray reading makes none.
use units::Levels;

mod readings; // readings.rt: the range of the readings
mod search; // search.rt: the levels of the supported readings
mod support; // support.rt: when a reading supports another, and how many must

ghost use Rattle.std.specs.Prelude.{◌≡◌};
ghost use Rattle.units.specs.Range.{from_to};
ghost use Rattle.window.specs.Evaluation.{evaluate};
ghost use Rattle.window.specs.Numbers.{as_evaluation};

// What a window is refused for.
#[derive(Clone, Copy, PartialEq, Eq)]
pub enum Refused {
    // Refusal 4: not 256 to 1,024 readings.
    Length,
    // Refusal 5: a reading outside -15,000 to 15,000 mV.
    Range,
    // Refusal 6: no reading has the support that it needs.
    Support,
}

// A window has 256 to 1,024 readings.
#[tactic(auto, unfolding(units::specs::Range::from_to))]
fn length_allowed(n: usize) -> bool
    ensures { result ≡ from_to 256 1024 n }
{
    (256..=1024).contains(&n)
}

// The high and the low level of a window, or the refusal of it.
#[tactic(auto, unfolding(crate::specs::Evaluation::evaluate, crate::specs::Evaluation::length_allowed))]
pub fn evaluate(window: &[i32]) -> Result<Levels, Refused>
    ensures { as_evaluation result ≡ evaluate window.now }
{
    if !length_allowed(window.len()) {
        return Err(Refused::Length);
    }
    if !readings::all_allowed(window) {
        return Err(Refused::Range);
    }
    search::levels(window).ok_or(Refused::Support)
}
