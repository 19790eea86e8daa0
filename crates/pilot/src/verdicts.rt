// The verdicts on a sample.
ghost use Rattle.std.specs.Prelude.{◌≡◌};
ghost use Rattle.pilot.specs.Verdicts.{sound, proven, diode_bad, verdict_of};

use crate::bands;
use units::{Levels, Millivolts};

// What is kept of a sample: its band, as a letter in ASCII or 0 for none, and the three verdicts.
#[repr(C)]
#[derive(Clone, Copy, PartialEq, Eq)]
pub struct Verdict {
    pub band: u8,
    pub sound: bool,
    pub proven: bool,
    pub diodebad: bool,
}

// Sound: high as a charging van holds it, with a margin; while the wave is driven, low in its band too.
#[tactic(auto, unfolding(crate::specs::Verdicts::sound, units::specs::Range::strictly_between, units::specs::Range::within))]
pub fn sound(driven: bool, levels: Levels) -> bool
    ensures { result ≡ sound driven levels.high.0 levels.low.0 }
{
    levels
        .high
        .strictly_between(Millivolts(1500), Millivolts(7500))
        && (!driven || bands::in_low_band(levels.low))
}

// Proven: a driven wave shows both a ready van and its diode.
#[tactic(auto, unfolding(crate::specs::Verdicts::proven, crate::specs::Bands::ready, crate::specs::Bands::band_of, units::specs::Range::within))]
pub fn proven(driven: bool, levels: Levels, ventilation: bool) -> bool
    ensures { result ≡ proven driven levels.high.0 levels.low.0 ventilation }
{
    let ready = bands::ready(bands::band(levels.high), ventilation);
    let low = bands::in_low_band(levels.low);
    driven && ready && low
}

// Diode-bad: a driven wave shows a van that is plugged in, and no diode.
#[tactic(auto, unfolding(crate::specs::Verdicts::diode_bad, crate::specs::Bands::is_bcd, crate::specs::Bands::band_of, units::specs::Range::within))]
pub fn diode_bad(driven: bool, levels: Levels) -> bool
    ensures { result ≡ diode_bad driven levels.high.0 levels.low.0 }
{
    let plugged = bands::is_b_c_or_d(bands::band(levels.high));
    let low = bands::in_low_band(levels.low);
    driven && plugged && !low
}

// The band and the verdicts of a sample, by whether the wave commanded before it is driven.
#[tactic(auto, unfolding(crate::specs::Verdicts::verdict_of))]
pub fn judge(driven: bool, levels: Levels, ventilation: bool) -> Verdict
    ensures { result ≡ verdict_of driven levels.high.0 levels.low.0 ventilation }
{
    Verdict {
        band: bands::band(levels.high),
        sound: sound(driven, levels),
        proven: proven(driven, levels, ventilation),
        diodebad: diode_bad(driven, levels),
    }
}
