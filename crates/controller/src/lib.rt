#![tactic(auto)]
// The controller of a charging post: one struct, and its five steps.
ghost use Rattle.std.specs.Prelude.{◌≡◌};
ghost use Rattle.parts.specs.Views.{as_settings};
ghost use Rattle.controller.specs.View.{view};
ghost use Rattle.controller.specs.Zeroed.{blank, zeroed};

use faults::Faults;
use parts::lines::Lines;
use parts::moments::Moment;
use parts::samples;
use parts::samples::Previous;
use parts::settings::Settings;
use units::{Milliamps, Millis};

mod accepted; // accepted.rt: the steps in their order
mod steps; // steps.rt: the steps of an accepted call

// What the host keeps, and lends to each call. In this order it takes 128 bytes, up to which it is copied without a call of memcpy
// (DECISIONS, 80 and 94).
#[repr(C)]
#[derive(Clone, Copy, PartialEq, Eq)]
pub struct Controller {
    pub settings: Settings,
    // The depot's limit.
    pub limit: Milliamps,
    // The current granted by link.
    pub grant: Milliamps,
    // The wave command, in tenths of a percent.
    pub wave: u32,
    pub closed: bool,
    // The settled state as its letter in ASCII; any other number is U.
    pub settled: u8,
    pub faults: Faults,
    pub previous: Previous,
    // The time of the last accepted call, or of begin.
    pub last: Millis,
    // The last sound sample.
    pub sound: Moment,
    // The last opening.
    pub opening: Moment,
    // The starts of the over-run, or its last restart, and of the stop.
    pub overrun: Moment,
    pub stop: Moment,
    // How often the contactor has closed since begin.
    pub closings: u32,
    // The currents of the last accepted measure.
    pub lines: Lines,
}

// A controller with nothing stored: no settled state, no previous sample, no fault, no current, the contactor open.
pub fn blank(settings: Settings, wave: u32, last: Millis) -> Controller
    ensures { view result ≡ blank (as_settings settings) wave last.0 }
{
    let empty = Moment::empty();
    Controller {
        settings,
        limit: Milliamps(0),
        grant: Milliamps(0),
        wave,
        closed: false,
        settled: 0,
        faults: Faults::none(),
        previous: samples::forgotten(),
        last,
        sound: empty,
        opening: empty,
        overrun: empty,
        stop: empty,
        closings: 0,
        lines: Lines::none(),
    }
}

impl Controller {
    // All zeros, as memory that the host has cleared: something to lend to the first begin. Refusal 1 names it in every other call, unless the time is too late (3).
    pub fn zeroed() -> Controller
        ensures { view result ≡ zeroed }
    {
        let none = Settings {
            rated: Milliamps(0),
            pause: Millis(0),
            ventilation: false,
            digital: false,
        };
        blank(none, 0, Millis(0))
    }
}
