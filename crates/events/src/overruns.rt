// What a measure does to the over-run.
ghost use Rattle.std.specs.Prelude.{◌≡◌};
ghost use Rattle.duty.specs.Numbers.{as_reads};
ghost use Rattle.rules.specs.State.{State};
ghost use Rattle.rules.specs.Step1Event.{current_of, announced, allowed_by, allowed_current, judges, is_over, overrun_judged, overrun_by};
ghost use Rattle.parts.specs.Views.{as_moment};
ghost use Rattle.events.specs.Views.{as_event};

use crate::Event;
use duty::{AboveScale, Reading};
use parts::moments::Moment;
use units::{Milliamps, Millis};

// What an over-run is judged against, by the post's mark: the wave, and the least of grant, rated and limit.
#[derive(Clone, Copy, PartialEq, Eq)]
pub struct Bound {
    pub digital: bool,
    pub least: Milliamps,
    pub wave: u32,
}

// The current that a reading tells; 0 where it tells none.
#[tactic(auto, unfolding(rules::specs::Step1Event::current_of))]
fn current_of(reading: Result<Reading, AboveScale>) -> Milliamps
    ensures { result.0 ≡ current_of (as_reads reading) }
{
    match reading {
        Ok(Reading::Current(current)) => current,
        _ => Milliamps(0),
    }
}

// The current that the van may draw by the wave.
#[tactic(auto, unfolding(rules::specs::Step1Event::announced))]
fn announced(wave: u32) -> Milliamps
    ensures { result.0 ≡ announced wave }
{
    current_of(duty::reading_of(wave))
}

impl Bound {
    // The wave's reading in a plain post, the least of grant, rated and limit in a digital one.
    #[tactic(auto, unfolding(rules::specs::Step1Event::allowed_by))]
    fn allowed(self) -> Milliamps
        ensures { result.0 ≡ allowed_by self.digital self.least.0 self.wave }
    {
        if self.digital {
            self.least
        } else {
            announced(self.wave)
        }
    }
}

// More than a tenth above what is allowed.
#[tactic(auto, unfolding(rules::specs::Step1Event::is_over))]
fn is_over(line: Milliamps, allowed: Milliamps) -> bool
    ensures { result ≡ is_over line.0 allowed.0 }
{
    let most = 11 * u64::from(allowed.0);
    let drawn = 10 * u64::from(line.0);
    most < drawn
}

// A measure that is judged: the over-run starts unless it runs, or it ends.
fn overrun_judged(time: Millis, line: Milliamps, allowed: Milliamps, overrun: Moment) -> Moment
    ensures { as_moment result ≡ overrun_judged time.0 line.0 allowed.0 (as_moment overrun) }
{
    if is_over(line, allowed) {
        overrun.started_by(time)
    } else {
        Moment::empty()
    }
}

// The over-run after the event: only a measure starts or ends it here, on the largest of its currents, and only where it is judged.
// The reading of a duty is not asked elsewhere (DECISIONS, 96).
#[tactic(auto, unfolding(rules::specs::Step1Event::overrun_by, rules::specs::Step1Event::overrun_at))]
pub fn overrun_by(time: Millis, event: Event, judged: bool, bound: Bound, overrun: Moment) -> Moment
    ensures { (s : State) → judges s ≡ judged → allowed_current s ≡ allowed_by bound.digital bound.least.0 bound.wave → s.overrun ≡ as_moment overrun
        → as_moment result ≡ overrun_by time.0 (as_event event) s }
{
    match event {
        Event::Measure(lines) if judged => {
            overrun_judged(time, lines.largest(), bound.allowed(), overrun)
        }
        _ => overrun,
    }
}
