// Numbers: as they are read, and as a row takes them.
ghost use Rattle.std.specs.Prelude.{◌≡◌, ◌<◌, ◌≤ℤ◌, min, pos, negsuc};

// A number has up to 15 digits, so its size lies below this.
const SIZES: u64 = 1_000_000_000_000_000;

// A number of up to 15 digits, below 0 or not.
#[derive(Clone, Copy, PartialEq, Eq)]
pub(crate) struct Number {
    pub below_zero: bool,
    pub size: u64,
    ghost bounded: { size < 1000000000000000 },
}

impl Number {
    // With one byte more: a digit, or the sign before the first digit that is not 0.
    fn with(self, b: u8) -> Option<Number> {
        match b {
            b'0'..=b'9' if self.size < SIZES / 10 => Some(Number {
                below_zero: self.below_zero,
                size: self.size * 10 + u64::from(b - b'0'),
            }),
            b'-' if !self.below_zero && self.size == 0 => Some(Number {
                below_zero: true,
                size: 0,
            }),
            _ => None,
        }
    }

    // The number that the bytes write: 0 where there are none.
    pub(crate) fn read(text: &[u8]) -> Option<Number> {
        let zero = Number {
            below_zero: false,
            size: 0,
        };
        text.iter().try_fold(zero, |number, b| number.with(*b))
    }

    // As the value of a token: its size, and for one below 0 that limit added to it.
    pub(crate) fn value(self) -> u64 {
        if self.below_zero {
            SIZES + self.size
        } else {
            self.size
        }
    }
}

// A value as a level; a size of a million or more, which is in no range, is a million.
pub fn level(value: u64) -> i32
    ensures low { negsuc 999999 ≤ℤ result }
    ensures high { result ≤ℤ pos 1000000 }
    ensures small { value < 1000000 → result ≡ pos value }
{
    let size = value % SIZES;
    if size >= 1_000_000 {
        1_000_000
    } else if value < SIZES {
        size as i32
    } else {
        -(size as i32)
    }
}

// A number of 32 bits; a larger one is the largest.
pub fn narrow(n: u64) -> u32
    ensures { result ≡ min n u32.MAX }
{
    u32::try_from(n).unwrap_or(u32::MAX)
}
