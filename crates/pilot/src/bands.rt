// Bands of levels: which band a high level is in, and what the bands tell of the van.
ghost use Rattle.std.specs.Prelude.{◌≡◌};
ghost use Rattle.pilot.specs.Bands.{in_low_band, band_of, ready, is_bcd};

use units::{Millivolts, Quantity};

// The low level of a driven wave, where the van has a sound diode.
#[tactic(auto, unfolding(units::specs::Range::within))]
pub fn in_low_band(level: Millivolts) -> bool
    ensures { result ≡ in_low_band level.0 }
{
    level.within(Millivolts(-13000), Millivolts(-11000))
}

// The band of a high level, as a letter in ASCII, or 0 for none.
#[tactic(auto, unfolding(crate::specs::Bands::band_of, units::specs::Range::within))]
pub fn band(high: Millivolts) -> u8
    ensures { result ≡ band_of high.0 }
{
    match high.0 {
        11000..=13000 => b'A',
        8000..=10000 => b'B',
        5000..=7000 => b'C',
        2000..=4000 => b'D',
        -1000..=1000 => b'E',
        _ => 0,
    }
}

// A van in this band is ready to charge.
#[tactic(auto, unfolding(crate::specs::Bands::ready))]
pub fn ready(band: u8, ventilation: bool) -> bool
    ensures { result ≡ ready band ventilation }
{
    match band {
        b'C' => true,
        b'D' => ventilation,
        _ => false,
    }
}

// The bands in which a diode shows.
#[tactic(auto, unfolding(crate::specs::Bands::is_bcd))]
pub fn is_b_c_or_d(band: u8) -> bool
    ensures { result ≡ is_bcd band }
{
    matches!(band, b'B' | b'C' | b'D')
}
