// Begin's settings: their ranges, and the pause in force.
ghost use Rattle.std.specs.Prelude.{◌≡◌, eqb};
ghost use Rattle.rules.specs.Begin.{rated_allowed, pause_allowed, pause_for, in_force};
ghost use Rattle.parts.specs.Views.{as_settings};

use units::{Milliamps, Millis, Quantity};

// The pause stands first, so that these take 16 bytes (DECISIONS, 80).
#[repr(C)]
#[derive(Clone, Copy, PartialEq, Eq)]
pub struct Settings {
    // In a controller, as it is in force; as given to begin, 0 asks for 10,000.
    pub pause: Millis,
    pub rated: Milliamps,
    pub ventilation: bool,
    // The mark: a digital post, or else a plain one.
    pub digital: bool,
}

#[tactic(auto, unfolding(rules::specs::Begin::rated_allowed, units::specs::Range::from_to))]
pub fn rated_allowed(rated: Milliamps) -> bool
    ensures { result ≡ rated_allowed rated.0 }
{
    rated.within(Milliamps(6000), Milliamps(80000))
}

// The range of a pause in force.
#[tactic(auto, unfolding(rules::specs::Begin::pause_allowed, units::specs::Range::from_to))]
pub fn pause_allowed(pause: Millis) -> bool
    ensures { result ≡ pause_allowed pause.0 }
{
    pause.within(Millis(1000), Millis(60000))
}

// 0 asks for the default.
pub fn asks_default(pause: Millis) -> bool
    ensures { result ≡ eqb pause.0 0 }
{
    pause == Millis(0)
}

// The pause in force: 0 means 10,000.
#[tactic(auto, unfolding(rules::specs::Begin::pause_for))]
fn pause_for(pause: Millis) -> Millis
    ensures { result.0 ≡ pause_for pause.0 }
{
    if asks_default(pause) {
        Millis(10000)
    } else {
        pause
    }
}

// The settings with the pause in force.
pub fn in_force(given: Settings) -> Settings
    ensures { as_settings result ≡ in_force (as_settings given) }
{
    Settings {
        pause: pause_for(given.pause),
        ..given
    }
}
