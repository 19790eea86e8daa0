// An accepted call: the steps in their order, and what is kept at its end.
ghost use Rattle.std.specs.Prelude.{◌≡◌, cond};
ghost use Rattle.rules.specs.Pairs.{pair_of};
ghost use Rattle.parts.specs.Views.{as_pair};
ghost use Rattle.events.specs.Views.{as_event};
ghost use Rattle.controller.specs.View.{state_of, view, on_accepted, evaluated_at};

use crate::Controller;
use crate::steps::Accepted;
use events::{Call, Event};
use parts::samples::Pair;
use units::Millis;

impl Controller {
    // The call's own sample, and the previous one as the call finds it.
    pub(crate) fn pair(self, event: Event) -> Pair
        ensures { as_pair result ≡ pair_of (state_of self) (as_event event) }
    {
        Pair {
            sampled: events::is_sample(event),
            this: events::verdict_of(event, self.is_driven(), self.settings.ventilation),
            previous: self.previous,
        }
    }

    // The controller after a call that is accepted.
    pub fn accepted(self, call: Call) -> Controller
        ensures { view result ≡ on_accepted (evaluated_at call.time call.event) (view self) }
    {
        let accepted = Accepted {
            time: call.time,
            event: call.event,
            pair: self.pair(call.event),
        };
        let after_event = self.event(accepted);
        let unsettles = after_event.unsettles(accepted);
        let after_wave = after_event.latch(accepted).wave(accepted.time);
        let opens = after_wave.opens(accepted);
        let after_closing = after_wave.opening(accepted).closing(opens, accepted);
        after_closing.end(unsettles || opens, accepted)
    }

    // Unchanged unless the call is accepted.
    pub fn after(self, accepted: bool, time: Millis, event: Event) -> Controller
        ensures { view result ≡ cond accepted (on_accepted (evaluated_at time event) (view self)) (view self) }
    {
        if accepted {
            self.accepted(Call { time, event })
        } else {
            self
        }
    }
}
