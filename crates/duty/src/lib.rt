#![tactic(auto)]
// Duty and current: what a duty tells a van, and the greatest duty for an available current. The tables named here are those of IEC 61851-1 Annex A
// (draft for Edition 3).
ghost use Rattle.std.specs.Prelude.{◌≡◌};
ghost use Rattle.duty.specs.Reading.{reading_of};
ghost use Rattle.duty.specs.DutyFor.{duty_for};
ghost use Rattle.duty.specs.Numbers.{as_reads, as_sends};

use units::Milliamps;

// What a duty tells a van.
#[derive(Clone, Copy, PartialEq, Eq)]
pub enum Reading {
    NoCharging,
    DigitalOnly,
    Current(Milliamps),
}

// Refusal 9: the duty is above 1000.
#[derive(Clone, Copy, PartialEq, Eq)]
pub struct AboveScale;

// Refusal 10: the current is below 6,000.
#[derive(Clone, Copy, PartialEq, Eq)]
pub struct TooLow;

// What a van reads from a duty, which is in tenths of a percent: the rows of table A3.9, in its order.
#[tactic(auto, unfolding(crate::specs::Reading::reading_of, units::specs::Range::from_to))]
pub fn reading_of(duty: u32) -> Result<Reading, AboveScale>
    ensures { as_reads result ≡ reading_of duty }
{
    Ok(match duty {
        // Less than 3 %.
        0..=29 => Reading::NoCharging,
        // 3 % to 7 %.
        30..=70 => Reading::DigitalOnly,
        // Above 7 %, less than 8 %.
        71..=79 => Reading::NoCharging,
        // 8 % to less than 10 %: 6 A.
        80..=99 => Reading::Current(Milliamps(6000)),
        // 10 % to 85 %: 0.6 A for each percent.
        100..=850 => Reading::Current(Milliamps(60 * duty)),
        // Above 85 %, up to 96 %: 2.5 A for each percent above 64.
        851..=960 => Reading::Current(Milliamps(250 * (duty - 640))),
        // Above 96 %, up to 97 %: 80 A.
        961..=970 => Reading::Current(Milliamps(80000)),
        // Above 97 %.
        971..=1000 => Reading::NoCharging,
        _ => return Err(AboveScale),
    })
}

// The greatest duty of a driven wave that tells no more than the available current: the two formulas of table A3.8, rounded down, and 85 % between them.
#[tactic(auto, using(crate::proofs::Laws::too_low, crate::proofs::Laws::sent_lower, crate::proofs::Laws::sent_between, crate::proofs::Laws::sent_upper, crate::proofs::Laws::sent_top))]
pub fn duty_for(available: Milliamps) -> Result<u32, TooLow>
    ensures { as_sends result ≡ duty_for available.0 }
{
    let current = available.0;
    match current {
        0..=5999 => Err(TooLow),
        // 10 % to less than 85 %: a percent for each 0.6 A.
        6000..=50999 => Ok(current / 60),
        // 85 % up to 52.75 A, which the next duty tells: the upper formula gives less here, outside of its own range.
        51000..=52749 => Ok(850),
        // Above 85 %, less than 96 %: 64 %, and a percent more for each 2.5 A.
        52750..=79999 => Ok(current / 250 + 640),
        // 96 % from 80 A on.
        _ => Ok(960),
    }
}
