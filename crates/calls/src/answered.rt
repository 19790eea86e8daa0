// What a call of any kind hands back.
ghost use Rattle.std.specs.Prelude.{◌≡◌};
ghost use Rattle.rules.specs.Answer.{answer_to};
ghost use Rattle.calls.specs.Answers.{handed_back};
ghost use Rattle.controller.specs.View.{view, evaluated_at};

use crate::{Answer, refused, shown};
use controller::Controller;
use events::Call;

// Accepted, the next controller and what is shown of it; refused, this one and its own, beside the number.
pub(crate) fn answer(c: Controller, call: Call) -> Answer
    ensures { handed_back result.reply result.controller ≡ answer_to (view c) (evaluated_at call.time call.event) }
{
    match refused::refusal(c, call) {
        Ok(()) => {
            let after = c.accepted(call);
            Answer {
                controller: after,
                reply: shown::reply(after, 0),
            }
        }
        Err(refusal) => Answer {
            controller: c,
            reply: shown::reply(c, refusal.number()),
        },
    }
}
