// The five steps of an accepted call, and its end: methods that take the controller by value and return it.
ghost use Rattle.std.specs.Prelude.{◌≡◌};
ghost use Rattle.rules.specs.Accepted.{step_end};
ghost use Rattle.rules.specs.Calls.{is_fault};
ghost use Rattle.rules.specs.State.{is_driven, available, least_of_three};
ghost use Rattle.rules.specs.Step1Event.{judges, step_event};
ghost use Rattle.rules.specs.Step2Latches.{over_current, unsettles, step_latch};
ghost use Rattle.rules.specs.Step3Wave.{held_high, step_wave};
ghost use Rattle.rules.specs.Step4Opening.{cause, opens, step_opening};
ghost use Rattle.rules.specs.Step5Closing.{closes};
ghost use Rattle.parts.specs.Views.{as_pair};
ghost use Rattle.events.specs.Views.{as_event};
ghost use Rattle.controller.specs.View.{state_of, view, on_state, on_closing};

use crate::Controller;
use events::{Bound, Event};
use parts::moments::Moment;
use parts::samples::Pair;
use parts::{counts, grants, samples};
use units::{Milliamps, Millis};
use waves::Change;

// An accepted call, as its steps see it: with its own sample beside the previous one.
#[derive(Clone, Copy, PartialEq, Eq)]
pub(crate) struct Accepted {
    pub time: Millis,
    pub event: Event,
    pub pair: Pair,
}

impl Controller {
    // The wave is driven, by the post's mark.
    pub fn is_driven(self) -> bool
        ensures { result ≡ is_driven (state_of self) }
    {
        units::driven_in(self.settings.digital, self.wave)
    }

    // A measure is judged: closed, and the wave driven.
    pub(crate) fn judges(self) -> bool
        ensures { result ≡ judges (state_of self) }
    {
        self.closed && self.is_driven()
    }

    // The lesser of rated and limit.
    #[tactic(auto, unfolding(rules::specs::State::available))]
    pub(crate) fn available(self) -> Milliamps
        ensures { result.0 ≡ available (state_of self) }
    {
        self.settings.rated.min(self.limit)
    }

    // The least of grant, rated and limit.
    #[tactic(auto, unfolding(rules::specs::State::least_of_three))]
    pub(crate) fn least(self) -> Milliamps
        ensures { result.0 ≡ least_of_three (state_of self) }
    {
        self.grant.min(self.available())
    }

    // Step 1: its event.
    pub(crate) fn event(mut self, call: Accepted) -> Controller
        ensures { view result ≡ on_state (step_event call.time.0 (as_event call.event) (as_pair call.pair)) (view self) }
    {
        let Accepted { time, event, pair } = call;
        let bound = Bound {
            digital: self.settings.digital,
            least: self.least(),
            wave: self.wave,
        };
        let limit = events::limit_by(event, self.limit);
        let settled = events::settled_by(pair, self.settled);
        let grant = events::grant_by(event, settled, self.grant);
        let faults = events::faults_by(event, self.faults);
        let sound = events::sound_by(time, pair, self.sound);
        let overrun = events::overrun_by(time, event, self.judges(), bound, self.overrun);
        let lines = events::lines_by(event, self.lines);
        self.limit = limit;
        self.settled = settled;
        self.grant = grant;
        self.faults = faults;
        self.sound = sound;
        self.overrun = overrun;
        self.lines = lines;
        self
    }

    // The over-run began, or restarted, 5,000 or longer ago.
    #[tactic(auto, unfolding(rules::specs::Step2Latches::over_current))]
    pub(crate) fn over_current(self, time: Millis) -> bool
        ensures { result ≡ over_current time.0 (state_of self) }
    {
        self.overrun.ran_for(Millis(5000), time)
    }

    // Something latches, or a latched fault is told again.
    #[tactic(auto, unfolding(rules::specs::Step2Latches::unsettles))]
    pub(crate) fn unsettles(self, call: Accepted) -> bool
        ensures { result ≡ unsettles (is_fault (as_event call.event)) call.time.0 (as_pair call.pair) (state_of self) }
    {
        events::is_fault(call.event) || call.pair.both_diode_bad() || self.over_current(call.time)
    }

    // Step 2: latches.
    #[tactic(auto, unfolding(rules::specs::Step2Latches::latched))]
    pub(crate) fn latch(mut self, call: Accepted) -> Controller
        ensures { view result ≡ on_state (step_latch (is_fault (as_event call.event)) call.time.0 (as_pair call.pair)) (view self) }
    {
        let unsettles = self.unsettles(call);
        let over = self.over_current(call.time);
        let settled = units::pick(unsettles, 0, self.settled);
        let faults = self.faults.with_latches(call.pair.both_diode_bad(), over);
        let previous = units::pick(unsettles, samples::forgotten(), self.previous);
        self.settled = settled;
        self.faults = faults;
        self.previous = previous;
        self
    }

    // The wave is held at steady +12 V: no duty by the plain rules, or a digital post closed with a grant below 6,000.
    #[tactic(auto, unfolding(rules::specs::Step3Wave::held_high))]
    pub(crate) fn held_high(self) -> bool
        ensures { result ≡ held_high (state_of self) }
    {
        waves::no_duty(self.available(), self.settled, self.settings.ventilation)
            || grants::low_grant(self.settings.digital, self.closed, self.grant)
    }

    // Step 3: the wave, and what follows from it for the over-run and the stop.
    #[tactic(auto, unfolding(rules::specs::Step3Wave::wave_for))]
    pub(crate) fn wave(mut self, time: Millis) -> Controller
        ensures { view result ≡ on_state (step_wave time.0) (view self) }
    {
        let digital = self.settings.digital;
        let wave = waves::wave_for(
            self.faults.any(),
            self.held_high(),
            digital,
            self.available(),
        );
        let change = Change {
            digital,
            old: self.wave,
            wave,
        };
        let overrun = change.overrun_under(time, self.overrun);
        let stop = change.stop_under(time, self.closed, self.stop);
        self.wave = wave;
        self.overrun = overrun;
        self.stop = stop;
        self
    }

    // An opening cause holds: i, ii, iii, iv or v.
    #[tactic(auto, unfolding(rules::specs::Step4Opening::cause, rules::specs::Step4Opening::cause1, rules::specs::Step4Opening::cause2, rules::specs::Step4Opening::cause3, rules::specs::Step4Opening::cause4, rules::specs::Step4Opening::cause5))]
    pub(crate) fn cause(self, call: Accepted) -> bool
        ensures { result ≡ cause call.time.0 (as_pair call.pair) (state_of self) }
    {
        call.pair.both_unsound()
            || self.sound.none_or_more_than_ago(Millis(80), call.time)
            || waves::unventilated_d(self.settled, self.settings.ventilation)
            || self.stop.ran_for(Millis(3000), call.time)
            || self.faults.any()
    }

    // This call opens the contactor.
    #[tactic(auto, unfolding(rules::specs::Step4Opening::opens))]
    pub(crate) fn opens(self, call: Accepted) -> bool
        ensures { result ≡ opens call.time.0 (as_pair call.pair) (state_of self) }
    {
        self.closed && self.cause(call)
    }

    // Step 4: opening.
    pub(crate) fn opening(mut self, call: Accepted) -> Controller
        ensures { view result ≡ on_state (step_opening call.time.0 (as_pair call.pair)) (view self) }
    {
        let opens = self.opens(call);
        let closed = self.closed && !opens;
        let opening = units::pick(opens, Moment::set_to(call.time), self.opening);
        let overrun = units::pick(opens, Moment::empty(), self.overrun);
        let stop = units::pick(opens, Moment::empty(), self.stop);
        let previous = units::pick(opens, samples::forgotten(), self.previous);
        self.closed = closed;
        self.opening = opening;
        self.overrun = overrun;
        self.stop = stop;
        self.previous = previous;
        self
    }

    // Every closing condition is met.
    #[tactic(auto, unfolding(rules::specs::Step5Closing::closes, rules::specs::Step5Closing::pause_over))]
    pub(crate) fn closes(self, opened: bool, call: Accepted) -> bool
        ensures { result ≡ closes opened call.time.0 (as_pair call.pair) (state_of self) }
    {
        !self.closed
            && !opened
            && self.is_driven()
            && grants::has_grant(self.settings.digital, self.grant)
            && call.pair.both_proven()
            && self
                .opening
                .none_or_at_least_ago(self.settings.pause, call.time)
    }

    // Step 5: closing.
    pub(crate) fn closing(mut self, opened: bool, call: Accepted) -> Controller
        ensures { view result ≡ on_closing opened call.time.0 (as_pair call.pair) (view self) }
    {
        let closes = self.closes(opened, call);
        self.closed = self.closed || closes;
        self.closings = counts::counted(closes, self.closings);
        self
    }

    // The end of a call: its time stays, and so does its sample, unless the call forgot.
    pub(crate) fn end(mut self, forgot: bool, call: Accepted) -> Controller
        ensures { view result ≡ on_state (step_end forgot call.time.0 (as_pair call.pair)) (view self) }
    {
        let keeps = call.pair.sampled && !forgot;
        let this = samples::kept_sample(call.pair.this);
        self.last = call.time;
        self.previous = units::pick(keeps, this, self.previous);
        self
    }
}
