// Times and starts that may be empty: the last sound sample, the last opening, the over-run, the stop.
ghost use Rattle.std.specs.Prelude.{◌≡◌};
ghost use Rattle.rules.specs.State.{empty, set_to, started_by, never_or_ago, never_or_longer_ago};
ghost use Rattle.rules.specs.Step2Latches.{ran_for};
ghost use Rattle.rules.specs.Altered.{stored_allowed};
ghost use Rattle.parts.specs.Views.{as_moment};

use units::Millis;

// A time that is set, or none. The number of an empty one says nothing.
#[repr(C)]
#[derive(Clone, Copy, PartialEq, Eq)]
pub struct Moment {
    pub set: bool,
    pub time: Millis,
}

impl Moment {
    pub fn empty() -> Moment
        ensures { as_moment result ≡ empty }
    {
        Moment {
            set: false,
            time: Millis(0),
        }
    }

    pub fn set_to(time: Millis) -> Moment
        ensures { as_moment result ≡ set_to time.0 }
    {
        Moment { set: true, time }
    }

    // Starts now, unless it runs already.
    pub fn started_by(self, time: Millis) -> Moment
        ensures { as_moment result ≡ started_by time.0 (as_moment self) }
    {
        Moment::set_to(units::pick(self.set, self.time, time))
    }

    // It runs, and began that long ago or longer.
    #[tactic(auto, unfolding(rules::specs::Step2Latches::ran_for))]
    pub fn ran_for(self, span: Millis, time: Millis) -> bool
        ensures { result ≡ ran_for span.0 time.0 (as_moment self) }
    {
        self.set && self.time.at_least_ago(span, time)
    }

    // No such time yet, or it lies that long ago or longer.
    pub fn none_or_at_least_ago(self, span: Millis, time: Millis) -> bool
        ensures { result ≡ never_or_ago span.0 time.0 (as_moment self) }
    {
        !self.set || self.time.at_least_ago(span, time)
    }

    // No such time yet, or it lies longer ago than that.
    pub fn none_or_more_than_ago(self, span: Millis, time: Millis) -> bool
        ensures { result ≡ never_or_longer_ago span.0 time.0 (as_moment self) }
    {
        !self.set || self.time.more_than_ago(span, time)
    }

    // Not above the last accepted time; an empty one is no stored time.
    #[tactic(auto, unfolding(rules::specs::Altered::stored_allowed))]
    pub fn stored_allowed(self, last: Millis) -> bool
        ensures { result ≡ stored_allowed last.0 (as_moment self) }
    {
        !self.set || self.time <= last
    }
}
