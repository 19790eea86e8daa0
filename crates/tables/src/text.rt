// The tokens of a line.
ghost use Rattle.std.specs.Prelude.{length};
ghost use Rattle.std.specs.Iterator.{at_most};

use crate::numbers::Number;
use crate::words::Word;

// What a token counts as in the form of its row.
#[derive(Clone, Copy, PartialEq, Eq)]
pub enum Kind {
    Word,
    Number,
    // A number below 0, or a run of readings.
    Level,
}

// How often a number is read: a number alone stands for 128 readings, and 7x9000 for 7.
#[derive(Clone, Copy)]
struct Run {
    times: u64,
    number: Number,
}

impl Run {
    // The run that a text writes. Behind each x a number starts afresh, and the last two count.
    fn read(text: &[u8]) -> Option<Run> {
        let mut times = 0;
        let mut number = Number {
            below_zero: false,
            size: 128,
        };
        for part in text.split(|b| *b == b'x') {
            times = number.value();
            number = Number::read(part)?;
        }
        Some(Run { times, number })
    }

    // A run above 2,000 counts as a word.
    fn kind(self) -> Kind {
        if self.times > 2000 {
            Kind::Word
        } else if self.number.below_zero || self.times != 128 {
            Kind::Level
        } else {
            Kind::Number
        }
    }
}

// A word or a number of a line.
#[derive(Clone, Copy)]
pub struct Token {
    pub kind: Kind,
    // Of a number its value, and of a word its last eight letters as one number.
    pub value: u64,
    // How many readings it stands for.
    pub readings: usize,
}

impl Token {
    // What is read past the end of a line.
    pub const NOTHING: Token = Token {
        kind: Kind::Word,
        value: 0,
        readings: 0,
    };

    fn read(text: &[u8]) -> Token {
        let Some(run) = Run::read(text) else {
            return Token {
                kind: Kind::Word,
                value: text
                    .iter()
                    .fold(0, |letters, b| letters << 8 | u64::from(*b)),
                readings: 0,
            };
        };
        // One without bytes, between two spaces, counts as a word, though it is 0.
        let kind = if text.is_empty() {
            Kind::Word
        } else {
            run.kind()
        };
        Token {
            kind,
            value: run.number.value(),
            readings: (run.times % 1_000_000) as usize,
        }
    }

    // The word that the last eight letters spell. The bytes of a number can spell one, too.
    pub(crate) fn word(self) -> Option<Word> {
        let letters = self.value.to_be_bytes();
        let zeros = self.value.leading_zeros() / 8;
        Word::try_from(&letters[zeros as usize..]).ok()
    }
}

// The tokens of a line, with a space between each two.
#[derive(Clone, Copy)]
pub struct Tokens<'a>(pub &'a [u8]);

impl<'a> Iterator for Tokens<'a> {
    type Item = Token;

    ghost remaining = { λ s. at_most (length s.0.now) };

    fn next(&mut self) -> Option<Token> {
        if self.0.is_empty() {
            return None;
        }
        let text = self.0.split(|b| *b == b' ').next()?;
        self.0 = self.0.get(text.len() + 1..).unwrap_or(&[]);
        Some(Token::read(text))
    }
}
