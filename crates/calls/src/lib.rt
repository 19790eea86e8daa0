#![tactic(auto)]
// The calls by value: each takes the controller, and hands back the next one with the reply.
ghost use Rattle.std.specs.Prelude.{◌≡◌};
ghost use Rattle.rules.specs.Answer.{answer_to};
ghost use Rattle.rules.specs.Calls.{sample, limit, measure, link, fault, clear, tick};
ghost use Rattle.rules.specs.Lines.{on_line1};
ghost use Rattle.events.specs.Views.{as_event};
ghost use Rattle.controller.specs.View.{view};
ghost use Rattle.calls.specs.Answers.{handed_back, Answers, Begins};

use controller::Controller;
use events::{Call, Event};
use parts::lines::Lines;
use parts::replies::Reply;
use parts::settings::Settings;
use units::{Milliamps, Millis};

mod answered; // answered.rt: what a call hands back
mod begun; // begun.rt: begin
mod refused; // refused.rt: what a call is refused for
mod shown; // shown.rt: the reply

// What a call hands back: the controller after it, and the reply.
#[repr(C)]
#[derive(Clone, Copy, PartialEq, Eq)]
pub struct Answer {
    pub controller: Controller,
    pub reply: Reply,
}

// A call at that time, with its kind and arguments.
fn taken(c: Controller, time: u64, event: Event) -> Answer
    ensures { handed_back result.reply result.controller ≡ answer_to (view c) (record { time = time; event = as_event event }) }
{
    let time = Millis(time);
    answered::answer(c, Call { time, event })
}

// Starts afresh with these settings; a pause of 0 stands for 10,000 ms. Refused, it hands back the lent controller, and a reply with
// zeros beside the number.
pub fn begin(
    c: Controller,
    time: u64,
    rated: u32,
    pause: u64,
    ventilation: bool,
    digital: bool,
) -> Answer
    ensures { Begins (record { time = time; rated = rated; pause = pause; ventilation = ventilation; digital = digital }) c result.reply result.controller }
{
    let given = Settings {
        rated: Milliamps(rated),
        pause: Millis(pause),
        ventilation,
        digital,
    };
    begun::begin_with(c, Millis(time), given)
}

// A window of readings of the control pilot, in millivolts.
#[tactic(auto, unfolding(rules::specs::Calls::evaluated))]
pub fn sample(c: Controller, time: u64, window: &[i32]) -> Answer
    ensures { Answers (record { time = time; event = sample window.now }) c result.reply result.controller }
{
    taken(c, time, Event::Sample(window::evaluate(window)))
}

// The depot's limit, in milliamps.
#[tactic(auto, unfolding(rules::specs::Calls::evaluated))]
pub fn limit(c: Controller, time: u64, current: u32) -> Answer
    ensures { Answers (record { time = time; event = limit current }) c result.reply result.controller }
{
    taken(c, time, Event::Limit(Milliamps(current)))
}

// The current on each line, in milliamps.
#[tactic(auto, unfolding(rules::specs::Calls::evaluated))]
pub fn measure_lines(c: Controller, time: u64, line1: u32, line2: u32, line3: u32) -> Answer
    ensures { Answers (record { time = time; event = measure (record { line1 = line1; line2 = line2; line3 = line3 }) }) c result.reply result.controller }
{
    let lines = Lines {
        line1: Milliamps(line1),
        line2: Milliamps(line2),
        line3: Milliamps(line3),
    };
    taken(c, time, Event::Measure(lines))
}

// One current, in milliamps: on line 1, and 0 on the others.
pub fn measure(c: Controller, time: u64, current: u32) -> Answer
    ensures { Answers (record { time = time; event = measure (on_line1 current) }) c result.reply result.controller }
{
    measure_lines(c, time, current, 0, 0)
}

// The current granted by link, in milliamps; refused by a plain post.
#[tactic(auto, unfolding(rules::specs::Calls::evaluated))]
pub fn link(c: Controller, time: u64, granted: u32) -> Answer
    ensures { Answers (record { time = time; event = link granted }) c result.reply result.controller }
{
    taken(c, time, Event::Link(Milliamps(granted)))
}

// A fault from outside: 3 residual current, 4 welded contact, 5 over-temperature.
#[tactic(auto, unfolding(rules::specs::Calls::evaluated))]
pub fn fault(c: Controller, time: u64, kind: u32) -> Answer
    ensures { Answers (record { time = time; event = fault kind }) c result.reply result.controller }
{
    taken(c, time, Event::Fault(kind))
}

// The faults are over.
#[tactic(auto, unfolding(rules::specs::Calls::evaluated))]
pub fn clear(c: Controller, time: u64) -> Answer
    ensures { Answers (record { time = time; event = clear }) c result.reply result.controller }
{
    taken(c, time, Event::Clear)
}

// Nothing but the time.
#[tactic(auto, unfolding(rules::specs::Calls::evaluated))]
pub fn tick(c: Controller, time: u64) -> Answer
    ensures { Answers (record { time = time; event = tick }) c result.reply result.controller }
{
    taken(c, time, Event::Tick)
}
