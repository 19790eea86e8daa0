// From the wave that the call finds to the one that it commands: the over-run and the stop under it.
ghost use Rattle.std.specs.Prelude.{◌≡◌};
ghost use Rattle.units.specs.Wave.{driven_in};
ghost use Rattle.rules.specs.Step3Wave.{lowers_duty, restarts, overrun_under, stop_under};
ghost use Rattle.parts.specs.Views.{as_moment};

use parts::moments::Moment;
use units::Millis;

// In a post of this mark: the wave as the call finds it, and the one that it commands.
#[derive(Clone, Copy, PartialEq, Eq)]
pub struct Change {
    pub digital: bool,
    pub old: u32,
    pub wave: u32,
}

impl Change {
    // The wave commanded is driven.
    fn is_driven(self) -> bool
        ensures { result ≡ driven_in self.digital self.wave }
    {
        units::driven_in(self.digital, self.wave)
    }

    // A driven duty is lowered to another driven one.
    #[tactic(auto, unfolding(rules::specs::Step3Wave::lowers_duty, units::specs::Wave::driven_in, units::specs::Wave::driven, units::specs::Range::from_to))]
    fn lowers_duty(self) -> bool
        ensures { result ≡ lowers_duty self.digital self.old self.wave }
    {
        let was_driven = units::driven_in(self.digital, self.old);
        let is_driven = self.is_driven();
        was_driven && is_driven && self.wave < self.old
    }

    // A lowered duty restarts a running over-run: the van has its 5 s to follow.
    #[tactic(auto, unfolding(rules::specs::Step3Wave::restarts))]
    fn restarts(self, overrun: Moment) -> bool
        ensures { result ≡ restarts self.digital self.old self.wave (as_moment overrun) }
    {
        self.lowers_duty() && overrun.set
    }

    // An over-run ends where the wave is not driven, and restarts at the call's own time where the duty is lowered.
    #[tactic(auto, unfolding(rules::specs::Step3Wave::overrun_under))]
    pub fn overrun_under(self, time: Millis, overrun: Moment) -> Moment
        ensures { as_moment result ≡ overrun_under self.digital time.0 self.old self.wave (as_moment overrun) }
    {
        if !self.is_driven() {
            Moment::empty()
        } else if self.restarts(overrun) {
            Moment::set_to(time)
        } else {
            overrun
        }
    }

    // A stop starts where the contactor is closed and the wave high, and ends where the wave is driven.
    #[tactic(auto, unfolding(rules::specs::Step3Wave::stop_under, units::specs::Wave::driven_in, units::specs::Wave::driven, units::specs::Range::from_to))]
    pub fn stop_under(self, time: Millis, closed: bool, stop: Moment) -> Moment
        ensures { as_moment result ≡ stop_under self.digital time.0 self.wave closed (as_moment stop) }
    {
        if closed && self.wave == 1000 {
            stop.started_by(time)
        } else if self.is_driven() {
            Moment::empty()
        } else {
            stop
        }
    }
}
