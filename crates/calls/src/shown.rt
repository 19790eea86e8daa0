// What is shown of the controller.
ghost use Rattle.std.specs.Prelude.{◌≡◌};
ghost use Rattle.rules.specs.Reply.{shown};
ghost use Rattle.parts.specs.Views.{as_reply};
ghost use Rattle.controller.specs.View.{view};

use controller::Controller;
use parts::replies;
use parts::replies::Reply;

// The reply, beside the refusal number.
pub(crate) fn reply(c: Controller, number: u8) -> Reply
    ensures { as_reply result ≡ shown number (view c) }
{
    let letter = replies::letter(c.faults.any(), c.settled);
    Reply {
        refusal: number,
        letter,
        digit: replies::digit(letter, c.is_driven()),
        wave: c.wave,
        closed: c.closed,
        fault: c.faults.first(),
        closings: c.closings,
        lines: c.lines,
    }
}
