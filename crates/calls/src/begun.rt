// Begin: the fresh controller, and what a refused begin answers.
ghost use Rattle.std.specs.Prelude.{◌≡◌};
ghost use Rattle.rules.specs.Answer.{begun};
ghost use Rattle.parts.specs.Views.{begins_with};
ghost use Rattle.controller.specs.View.{view};
ghost use Rattle.calls.specs.Answers.{Begins};

use crate::{Answer, shown};
use controller::Controller;
use parts::settings::Settings;
use parts::{replies, settings};
use units::Millis;

// The controller of an accepted begin; its wave is steady +12 V.
#[tactic(auto, unfolding(rules::specs::Begin::fresh))]
fn fresh(time: Millis, given: Settings) -> Controller
    ensures { view result ≡ begun (begins_with time given) }
{
    controller::blank(settings::in_force(given), 1000, time)
}

// Accepted, the fresh controller and what is shown of it; refused, this one, and the number alone.
#[tactic(auto, unfolding(rules::specs::Answer::answer_to_begin))]
pub(crate) fn begin_with(c: Controller, time: Millis, given: Settings) -> Answer
    ensures { Begins (begins_with time given) c result.reply result.controller }
{
    match refusals::begin_refusal(time, given) {
        Ok(()) => {
            let fresh = fresh(time, given);
            Answer {
                controller: fresh,
                reply: shown::reply(fresh, 0),
            }
        }
        Err(refusal) => Answer {
            controller: c,
            reply: replies::alone(refusal.number()),
        },
    }
}
