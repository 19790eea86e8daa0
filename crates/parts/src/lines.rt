// The current on each line.
ghost use Rattle.std.specs.Prelude.{◌≡◌};
ghost use Rattle.rules.specs.Lines.{no_currents, largest, line_allowed, lines_allowed};
ghost use Rattle.parts.specs.Views.{as_lines};

use units::Milliamps;

#[repr(C)]
#[derive(Clone, Copy, PartialEq, Eq)]
pub struct Lines {
    pub line1: Milliamps,
    pub line2: Milliamps,
    pub line3: Milliamps,
}

// The range of each of the three.
#[tactic(auto, unfolding(rules::specs::Lines::line_allowed))]
fn line_allowed(current: Milliamps) -> bool
    ensures { result ≡ line_allowed current.0 }
{
    current <= Milliamps(200000)
}

impl Lines {
    // 0 at the start.
    pub fn none() -> Lines
        ensures { as_lines result ≡ no_currents }
    {
        Lines {
            line1: Milliamps(0),
            line2: Milliamps(0),
            line3: Milliamps(0),
        }
    }

    // What is judged for an over-run.
    #[tactic(auto, unfolding(rules::specs::Lines::largest))]
    pub fn largest(self) -> Milliamps
        ensures { result.0 ≡ largest (as_lines self) }
    {
        self.line1.max(self.line2.max(self.line3))
    }

    // None of them is above the range.
    #[tactic(auto, unfolding(rules::specs::Lines::lines_allowed))]
    pub fn allowed(self) -> bool
        ensures { result ≡ lines_allowed (as_lines self) }
    {
        line_allowed(self.line1) && line_allowed(self.line2) && line_allowed(self.line3)
    }
}
