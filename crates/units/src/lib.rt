#![tactic(auto)]
// The units of the control pilot: level, current and time. Each is a type of its own, so that the compiler refuses one in the
// place of another. A duty, and so a wave command, is a plain number: tenths of a percent.
mod quantity; // quantity.rt: the order of levels, currents and times
mod wave; // wave.rt: the wave command

ghost use Rattle.std.specs.Prelude.{◌≡◌, cond};
ghost use Rattle.units.specs.Range.{strictly_between, ago, longer_ago};

pub use quantity::Quantity;
pub use wave::{driven, driven_in, is_five_percent};

// A level of the control pilot, in millivolts.
#[repr(C)]
#[derive(Clone, Copy, PartialEq, Eq, PartialOrd, Ord)]
pub struct Millivolts(pub i32);

// A current, in milliamps.
#[repr(C)]
#[derive(Clone, Copy, PartialEq, Eq, PartialOrd, Ord)]
pub struct Milliamps(pub u32);

// A point in time or a span of time, in milliseconds.
#[repr(C)]
#[derive(Clone, Copy, PartialEq, Eq, PartialOrd, Ord)]
pub struct Millis(pub u64);

// The high and the low level of a window.
#[derive(Clone, Copy, PartialEq, Eq)]
pub struct Levels {
    pub high: Millivolts,
    pub low: Millivolts,
}

// The first if told so, else the second: chosen without a jump (DECISIONS, 40).
pub fn pick<T: Copy>(first: bool, a: T, b: T) -> T
    ensures { result ≡ cond first a b }
{
    if first { a } else { b }
}

impl Millivolts {
    // Between two levels; the ends do not belong.
    #[tactic(auto, unfolding(crate::specs::Range::strictly_between))]
    pub fn strictly_between(self, from: Millivolts, to: Millivolts) -> bool
        ensures { result ≡ strictly_between from.0 to.0 self.0 }
    {
        from < self && self < to
    }
}

impl Millis {
    // At `time`, this time lies `span` or more ago. No sum is made that could overflow (DECISIONS, 24).
    pub fn at_least_ago(self, span: Millis, time: Millis) -> bool
        ensures { result ≡ ago span.0 time.0 self.0 }
    {
        self <= time && span.0 <= time.0 - self.0
    }

    // At `time`, this time lies more than `span` ago.
    pub fn more_than_ago(self, span: Millis, time: Millis) -> bool
        ensures { result ≡ longer_ago span.0 time.0 self.0 }
    {
        self <= time && span.0 < time.0 - self.0
    }
}
