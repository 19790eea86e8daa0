// What a call is refused for when it is lent this controller.
ghost use Rattle.std.specs.Prelude.{◌≡◌};
ghost use Rattle.rules.specs.Altered.{times_allowed, in_range, altered, lent_refusal};
ghost use Rattle.controller.specs.View.{state_of, view, evaluated_at};
ghost use Rattle.refusals.specs.Numbers.{refusal_number};

use controller::Controller;
use events::Call;
use parts::{grants, settings};
use refusals::Refusal;

// No stored time is above the last accepted one.
#[tactic(auto, unfolding(rules::specs::Altered::times_allowed))]
fn times_allowed(c: Controller) -> bool
    ensures { result ≡ times_allowed (state_of c) }
{
    c.sound.stored_allowed(c.last)
        && c.opening.stored_allowed(c.last)
        && c.overrun.stored_allowed(c.last)
        && c.stop.stored_allowed(c.last)
}

#[tactic(auto, unfolding(rules::specs::Altered::in_range))]
fn in_range(c: Controller) -> bool
    ensures { result ≡ in_range (state_of c) }
{
    refusals::wave_allowed(c.settings.digital, c.wave)
        && refusals::limit_allowed(c.limit)
        && grants::grant_allowed(c.grant)
        && settings::rated_allowed(c.settings.rated)
        && settings::pause_allowed(c.settings.pause)
        && times_allowed(c)
}

// The host has altered it: no list of calls leads here.
#[tactic(auto, unfolding(rules::specs::Altered::altered))]
pub(crate) fn altered(c: Controller) -> bool
    ensures { result ≡ altered (view c) }
{
    !(in_range(c) && refusals::count_allowed(c.closings))
}

// 3, then 2, then 1, then those for the arguments.
#[tactic(auto, unfolding(rules::specs::Altered::lent_refusal))]
pub(crate) fn refusal(c: Controller, call: Call) -> Result<(), Refusal>
    ensures { refusal_number result ≡ lent_refusal (view c) (evaluated_at call.time call.event) }
{
    refusals::time_refusal(c.last, call.time)?;
    if altered(c) {
        return Err(Refusal::Settings);
    }
    refusals::argument_refusal(c.settings.digital, call.event)
}
