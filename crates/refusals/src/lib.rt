#![tactic(auto)]
// What a call is refused for: 3, then 2, then by number, but 12 before 11.
mod refusal; // refusal.rt: the refusals and their numbers

ghost use Rattle.std.specs.Prelude.{◌≡◌, cond};
ghost use Rattle.rules.specs.Begin.{too_late, begin_refusal};
ghost use Rattle.rules.specs.Altered.{count_allowed, duty_allowed, wave_allowed};
ghost use Rattle.rules.specs.Refusals.{time_refusal, limit_allowed, argument_refusal};
ghost use Rattle.parts.specs.Views.{begins_with};
ghost use Rattle.events.specs.Views.{as_event};
ghost use Rattle.refusals.specs.Numbers.{refusal_number};

use events::Event;
use faults::Fault;
use parts::settings::Settings;
use parts::{grants, settings};
pub use refusal::Refusal;
use units::{Milliamps, Millis};

// Beyond the scale of times.
pub fn too_late(time: Millis) -> bool
    ensures { result ≡ too_late time.0 }
{
    Millis(1000000000000) < time
}

// 3: beyond the scale of times; 2: earlier than the last accepted call.
#[tactic(auto, unfolding(rules::specs::Refusals::time_refusal))]
pub fn time_refusal(last: Millis, time: Millis) -> Result<(), Refusal>
    ensures { refusal_number result ≡ time_refusal last.0 time.0 }
{
    if too_late(time) {
        return Err(Refusal::Late);
    }
    if time < last {
        return Err(Refusal::Earlier);
    }
    Ok(())
}

#[tactic(auto, unfolding(rules::specs::Refusals::limit_allowed))]
pub fn limit_allowed(current: Milliamps) -> bool
    ensures { result ≡ limit_allowed current.0 }
{
    current <= Milliamps(80000)
}

// 13: a limit above 80,000.
#[tactic(auto, unfolding(rules::specs::Refusals::limit_allowed))]
fn limit_refusal(current: Milliamps) -> Result<(), Refusal>
    ensures { refusal_number result ≡ cond (limit_allowed current.0) 0 13 }
{
    if limit_allowed(current) {
        Ok(())
    } else {
        Err(Refusal::Limit)
    }
}

// The duties that a post of this mark commands: 5 %, or 100 to 960.
#[tactic(auto, unfolding(rules::specs::Altered::duty_allowed))]
fn duty_allowed(digital: bool, wave: u32) -> bool
    ensures { result ≡ duty_allowed digital wave }
{
    if digital {
        units::is_five_percent(wave)
    } else {
        units::driven(wave)
    }
}

// The wave's range in a lent controller of this mark.
#[tactic(auto, unfolding(rules::specs::Altered::wave_allowed))]
pub fn wave_allowed(digital: bool, wave: u32) -> bool
    ensures { result ≡ wave_allowed digital wave }
{
    wave == 0 || duty_allowed(digital, wave) || wave == 1000
}

// The closings of a lent controller.
pub fn count_allowed(closings: u32) -> bool
    ensures { result ≡ count_allowed closings }
{
    closings <= 1000000001
}

// 4 to 8, and 11 to 13: for the arguments, in a post of this mark; 12 before 11.
#[tactic(auto, unfolding(rules::specs::Refusals::argument_refusal, rules::specs::Refusals::link_refusal, rules::specs::Refusals::kind_allowed, units::specs::Range::from_to))]
pub fn argument_refusal(digital: bool, event: Event) -> Result<(), Refusal>
    ensures { refusal_number result ≡ argument_refusal digital (as_event event) }
{
    match event {
        Event::Sample(window) => {
            window?;
            Ok(())
        }
        Event::Limit(current) => limit_refusal(current),
        Event::Measure(lines) if !lines.allowed() => Err(Refusal::Measure),
        Event::Link(_) if !digital => Err(Refusal::Plain),
        Event::Link(granted) if !grants::grant_allowed(granted) => Err(Refusal::Grant),
        Event::Fault(kind) if Fault::told(kind).is_none() => Err(Refusal::Kind),
        _ => Ok(()),
    }
}

// Begin's refusal: 3, then 1.
#[tactic(auto, unfolding(rules::specs::Begin::begin_refusal))]
pub fn begin_refusal(time: Millis, given: Settings) -> Result<(), Refusal>
    ensures { refusal_number result ≡ begin_refusal (begins_with time given) }
{
    if too_late(time) {
        return Err(Refusal::Late);
    }
    let pause_allowed = settings::asks_default(given.pause) || settings::pause_allowed(given.pause);
    if settings::rated_allowed(given.rated) && pause_allowed {
        Ok(())
    } else {
        Err(Refusal::Settings)
    }
}
