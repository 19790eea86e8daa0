// Beside a row stands its answer: of a single function, or the reply to a call.
ghost use Rattle.std.specs.Prelude.{◌≡◌, Some, false};
ghost use Rattle.tables.specs.declared.rows.Row.TheVariants.{Keep, Kept, Zeroed};

use crate::replies::Outcome;
use duty::{AboveScale, Reading, TooLow};
use pilot::{bands, verdicts};
use refusals::Refusal;
use std::io;
use std::io::Write;
use tables::rows::Row;
use units::{Levels, Milliamps, Millivolts};

fn available<W: Write>(out: &mut W, current: Milliamps) -> io::Result<()> {
    match duty::duty_for(current) {
        Ok(duty) => write!(out, "duty {duty}"),
        Err(TooLow) => write!(out, "refused 10"),
    }
}

fn reading<W: Write>(out: &mut W, duty: u32) -> io::Result<()> {
    match duty::reading_of(duty) {
        Ok(Reading::NoCharging) => write!(out, "no charging"),
        Ok(Reading::DigitalOnly) => write!(out, "digital only"),
        Ok(Reading::Current(current)) => write!(out, "{} mA", current.0),
        Err(AboveScale) => write!(out, "refused 9"),
    }
}

fn levels<W: Write>(out: &mut W, window: &[i32]) -> io::Result<()> {
    match window::evaluate(window) {
        Ok(levels) => write!(out, "high {}, low {}", levels.high.0, levels.low.0),
        Err(refused) => write!(out, "refused {}", Refusal::from(refused).number()),
    }
}

// Under a driven wave.
fn sound<W: Write>(out: &mut W, levels: Levels) -> io::Result<()> {
    let sound = verdicts::sound(true, levels);
    write!(out, "{}", if sound { "sound" } else { "unsound" })
}

fn low<W: Write>(out: &mut W, level: Millivolts) -> io::Result<()> {
    let is_in = if bands::in_low_band(level) {
        "in"
    } else {
        "not in"
    };
    write!(out, "{is_in} the low band")
}

// A line, the row that it is read as, and what came of it.
#[derive(Clone, Copy)]
pub struct Answered<'l, 'w> {
    pub line: &'l [u8],
    pub row: Option<Row<'w>>,
    pub outcome: Outcome,
}

impl Answered<'_, '_> {
    // A line that starts with a capital letter or with # and an empty one are headings. They and the rows that only say which
    // controller is lent have no answer.
    pub fn has_answer(&self) -> bool
        ensures keep { self.now.row ≡ Some Keep → result ≡ false }
        ensures kept { self.now.row ≡ Some Kept → result ≡ false }
        ensures cleared { self.now.row ≡ Some Zeroed → result ≡ false }
    {
        match self.line.first() {
            None | Some(b'A'..=b'Z' | b'#') => false,
            _ => !matches!(
                self.row,
                Some(Row::Keep | Row::Kept | Row::With { .. } | Row::Zeroed)
            ),
        }
    }

    fn answer<W: Write>(&self, out: &mut W) -> io::Result<()> {
        match self.row {
            None => write!(out, "NOT A ROW"),
            Some(Row::Available(current)) => available(out, Milliamps(current)),
            Some(Row::Reading(duty)) => reading(out, duty),
            Some(Row::Sound { high, low }) => sound(
                out,
                Levels {
                    high: Millivolts(high),
                    low: Millivolts(low),
                },
            ),
            Some(Row::Low(level)) => low(out, Millivolts(level)),
            Some(Row::Levels(window)) => levels(out, window),
            _ => write!(out, "{}", self.outcome),
        }
    }

    // A line as it stands, and beside a row its answer: from column 40 on, or behind a space.
    pub fn write<W: Write>(&self, out: &mut W) -> io::Result<()> {
        let spaces = b"                                        ";
        out.write_all(self.line)?;
        if self.has_answer() {
            out.write_all(&spaces[self.line.len().min(39)..])?;
            self.answer(out)?;
        }
        out.write_all(b"\n")
    }
}
