#![tactic(auto)]
// Step 3 of an accepted call: the wave, and what follows from it for the over-run and the stop.
mod change; // change.rt: from the wave that the call finds to the one that it commands

ghost use Rattle.std.specs.Prelude.{◌≡◌};
ghost use Rattle.duty.specs.DutyFor.{duty_for};
ghost use Rattle.rules.specs.Step3Wave.{is_uae, unventilated_d, no_duty, sent, driven_wave, wave_of};

pub use change::Change;
use parts::samples;
use units::Milliamps;

// Settled U, A or E.
#[tactic(auto, unfolding(rules::specs::Step3Wave::is_uae))]
fn is_u_a_or_e(settled: u8) -> bool
    ensures { result ≡ is_uae settled }
{
    !samples::is_settled(settled) || settled == b'A' || settled == b'E'
}

// Settled D without ventilation.
#[tactic(auto, unfolding(rules::specs::Step3Wave::unventilated_d))]
pub fn unventilated_d(settled: u8, ventilation: bool) -> bool
    ensures { result ≡ unventilated_d settled ventilation }
{
    settled == b'D' && !ventilation
}

// No duty by the plain rules, though there is no fault.
#[tactic(auto, unfolding(rules::specs::Step3Wave::no_duty))]
pub fn no_duty(available: Milliamps, settled: u8, ventilation: bool) -> bool
    ensures { result ≡ no_duty available.0 settled ventilation }
{
    available < Milliamps(6000) || is_u_a_or_e(settled) || unventilated_d(settled, ventilation)
}

// The duty for the available current; where there is none the wave stays high.
#[tactic(auto, unfolding(rules::specs::Step3Wave::sent))]
fn sent_for(available: Milliamps) -> u32
    ensures { result ≡ sent (duty_for available.0) }
{
    duty::duty_for(available).unwrap_or(1000)
}

// 5 % in a digital post, else the duty for the available current.
#[tactic(auto, unfolding(rules::specs::Step3Wave::driven_wave))]
fn driven_wave(digital: bool, available: Milliamps) -> u32
    ensures { result ≡ driven_wave digital available.0 }
{
    if digital { 50 } else { sent_for(available) }
}

// The wave of a post: steady -12 V with a fault, steady +12 V where it is held there, else the driven one.
#[tactic(auto, unfolding(rules::specs::Step3Wave::wave_of))]
pub fn wave_for(faulted: bool, held: bool, digital: bool, available: Milliamps) -> u32
    ensures { result ≡ wave_of faulted held (driven_wave digital available.0) }
{
    if faulted {
        0
    } else if held {
        1000
    } else {
        driven_wave(digital, available)
    }
}
