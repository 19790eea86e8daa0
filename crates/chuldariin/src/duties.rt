// Duty and current for the host: what a van reads from a duty, and the greatest duty for an available current.
ghost use Rattle.std.specs.Prelude.{◌≡◌};
ghost use Rattle.duty.specs.Reading.{reading_of};
ghost use Rattle.duty.specs.DutyFor.{duty_for};
ghost use Rattle.duty.specs.Numbers.{as_reads, as_sends};
ghost use Rattle.chuldariin.specs.Duties.{host_reading, host_duty};

use duty::{AboveScale, Reading, TooLow};
use units::Milliamps;

// What a van reads from a duty.
#[repr(C)]
#[derive(Clone, Copy, PartialEq, Eq)]
pub struct ReadingReply {
    // 0, or refusal 9.
    pub refusal: u8,
    // 0 no charging, 1 digital only, 2 a current.
    pub kind: u8,
    // In milliamps; 0 for the other kinds.
    pub current: u32,
}

// The greatest duty for an available current.
#[repr(C)]
#[derive(Clone, Copy, PartialEq, Eq)]
pub struct DutyReply {
    // 0, or refusal 10.
    pub refusal: u8,
    // In tenths of a percent; 0 if refused.
    pub duty: u32,
}

fn host_reading(reading: Result<Reading, AboveScale>) -> ReadingReply
    ensures { result ≡ host_reading (as_reads reading) }
{
    let (refusal, kind, current) = match reading {
        Ok(Reading::NoCharging) => (0, 0, 0),
        Ok(Reading::DigitalOnly) => (0, 1, 0),
        Ok(Reading::Current(current)) => (0, 2, current.0),
        Err(AboveScale) => (9, 0, 0),
    };
    ReadingReply {
        refusal,
        kind,
        current,
    }
}

fn host_duty(greatest: Result<u32, TooLow>) -> DutyReply
    ensures { result ≡ host_duty (as_sends greatest) }
{
    match greatest {
        Ok(duty) => DutyReply { refusal: 0, duty },
        Err(TooLow) => DutyReply {
            refusal: 10,
            duty: 0,
        },
    }
}

// The reading of a duty, in tenths of a percent; refused 9 above 1000.
#[unsafe(no_mangle)]
pub extern "C" fn chuldariin_reading(tenths: u32) -> ReadingReply
    ensures { result ≡ host_reading (reading_of tenths) }
{
    host_reading(duty::reading_of(tenths))
}

// The greatest duty of a driven wave for an available current, in milliamps; refused 10 below 6,000.
#[unsafe(no_mangle)]
pub extern "C" fn chuldariin_duty(current: u32) -> DutyReply
    ensures { result ≡ host_duty (duty_for current) }
{
    host_duty(duty::duty_for(Milliamps(current)))
}
