#![tactic(auto)]
// Step 1 of an accepted call: its event. A call's kind and arguments, and what each kind does.
mod overruns; // overruns.rt: what a measure does to the over-run

ghost use Rattle.std.specs.Prelude.{◌≡◌};
ghost use Rattle.rules.specs.Calls.{is_sample, is_fault};
ghost use Rattle.rules.specs.Pairs.{verdict};
ghost use Rattle.rules.specs.State.{State, is_driven};
ghost use Rattle.rules.specs.Step1Event.{settled_by, sound_by, limit_by, grant_stored, grant_by, lines_by, faults_by};
ghost use Rattle.parts.specs.Views.{as_moment, as_pair, as_lines};
ghost use Rattle.faults.specs.Views.{as_faults};
ghost use Rattle.events.specs.Views.{as_event};

use faults::Faults;
pub use overruns::{Bound, overrun_by};
use parts::lines::Lines;
use parts::moments::Moment;
use parts::samples;
use parts::samples::Pair;
use pilot::verdicts;
use pilot::verdicts::Verdict;
use units::{Levels, Milliamps, Millis};
use window::Refused;

// Kind and arguments of a call.
#[derive(Clone, Copy, PartialEq, Eq)]
pub enum Event {
    // The levels of a window, or what it is refused for.
    Sample(Result<Levels, Refused>),
    // The depot's limit.
    Limit(Milliamps),
    // The current on each line.
    Measure(Lines),
    // The current granted by link.
    Link(Milliamps),
    // A fault's number.
    Fault(u32),
    Clear,
    Tick,
}

// A call: its time, kind and arguments.
#[derive(Clone, Copy, PartialEq, Eq)]
pub struct Call {
    pub time: Millis,
    pub event: Event,
}

pub fn is_sample(event: Event) -> bool
    ensures { result ≡ is_sample (as_event event) }
{
    matches!(event, Event::Sample(_))
}

pub fn is_fault(event: Event) -> bool
    ensures { result ≡ is_fault (as_event event) }
{
    matches!(event, Event::Fault(_))
}

// A sample's verdict: its levels, judged by whether the wave is driven and by the ventilation, as the call finds them.
#[tactic(auto, unfolding(rules::specs::Pairs::verdict, rules::specs::Pairs::window_verdict))]
pub fn verdict_of(event: Event, driven: bool, ventilation: bool) -> Verdict
    ensures { (s : State) → is_driven s ≡ driven → s.settings.ventilation ≡ ventilation → result ≡ verdict s (as_event event) }
{
    match event {
        Event::Sample(Ok(levels)) => verdicts::judge(driven, levels, ventilation),
        _ => samples::no_verdict(),
    }
}

// Settling: by a pair in one band.
#[tactic(auto, unfolding(rules::specs::Step1Event::settled_by))]
pub fn settled_by(pair: Pair, settled: u8) -> u8
    ensures { result ≡ settled_by (as_pair pair) settled }
{
    if pair.in_one_band() {
        pair.this.band
    } else {
        settled
    }
}

// The time of the last sound sample.
#[tactic(auto, unfolding(rules::specs::Step1Event::sound_by))]
pub fn sound_by(time: Millis, pair: Pair, sound: Moment) -> Moment
    ensures { as_moment result ≡ sound_by time.0 (as_pair pair) (as_moment sound) }
{
    units::pick(pair.sampled && pair.this.sound, Moment::set_to(time), sound)
}

// Limit stored.
#[tactic(auto, unfolding(rules::specs::Step1Event::limit_by))]
pub fn limit_by(event: Event, stored: Milliamps) -> Milliamps
    ensures { result.0 ≡ limit_by (as_event event) stored.0 }
{
    match event {
        Event::Limit(given) => given,
        _ => stored,
    }
}

// A link call stores its grant.
#[tactic(auto, unfolding(rules::specs::Step1Event::grant_stored))]
fn grant_stored(event: Event, stored: Milliamps) -> Milliamps
    ensures { result.0 ≡ grant_stored (as_event event) stored.0 }
{
    match event {
        Event::Link(granted) => granted,
        _ => stored,
    }
}

// The grant: 0 with A settled, which is the state after settling, else as stored.
#[tactic(auto, unfolding(rules::specs::Step1Event::grant_by))]
pub fn grant_by(event: Event, settled: u8, stored: Milliamps) -> Milliamps
    ensures { result.0 ≡ grant_by (as_event event) settled stored.0 }
{
    if settled == b'A' {
        Milliamps(0)
    } else {
        grant_stored(event, stored)
    }
}

// A measure's currents are kept, whatever the contactor and the wave.
#[tactic(auto, unfolding(rules::specs::Step1Event::lines_by))]
pub fn lines_by(event: Event, stored: Lines) -> Lines
    ensures { as_lines result ≡ lines_by (as_event event) (as_lines stored) }
{
    match event {
        Event::Measure(given) => given,
        _ => stored,
    }
}

// Latching by a fault call, and clear.
#[tactic(auto, unfolding(rules::specs::Step1Event::faults_by))]
pub fn faults_by(event: Event, faults: Faults) -> Faults
    ensures { as_faults result ≡ faults_by (as_event event) (as_faults faults) }
{
    match event {
        Event::Fault(kind) => faults.with_kind(kind),
        Event::Clear => Faults::none(),
        _ => faults,
    }
}
