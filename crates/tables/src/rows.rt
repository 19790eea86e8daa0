// A row: a word, and what belongs to it.
use crate::numbers::{level, narrow};
use crate::readings::window;
use crate::text::{Kind, Token, Tokens};
use crate::words::Word;

// A field of a controller that a row alters.
#[derive(Clone, Copy, PartialEq, Eq)]
pub enum Field {
    Rated,
    Pause,
    Digital,
    Limit,
    Grant,
    Wave,
    Closings,
    Sound,
    Opening,
    Overrun,
    Stop,
    Line1,
    Line2,
    Line3,
}

// Times are in ms, currents in mA, levels in mV.
#[derive(Clone, Copy)]
pub enum Row<'a> {
    // Which controller is lent.
    Keep,
    Kept,
    Zeroed,
    With {
        field: Field,
        value: u64,
    },
    // Single functions.
    Available(u32),
    Reading(u32),
    Sound {
        high: i32,
        low: i32,
    },
    Low(i32),
    Levels(&'a [i32]),
    // Calls, each with its time.
    Begin {
        time: u64,
        rated: u32,
        pause: u64,
        ventilation: bool,
        digital: bool,
    },
    Sample(u64, &'a [i32]),
    // A sample every 10 ms, up to that time.
    Samples(u64, &'a [i32]),
    Limit(u64, u32),
    Measure(u64, u32),
    MeasureLines(u64, [u32; 3]),
    Link(u64, u32),
    Fault(u64, u32),
    Clear(u64),
    Tick(u64),
}

// The form of a row: how many tokens it has of each kind.
#[derive(Clone, Copy)]
struct Form {
    words: usize,
    numbers: usize,
    levels: usize,
}

// As many tokens as the longest row has: the word, a time and 40 runs.
const LONGEST: usize = 42;

impl Form {
    const NONE: Form = Form {
        words: 0,
        numbers: 0,
        levels: 0,
    };

    // With one token more.
    fn with(self, token: Token) -> Form {
        let mut form = self;
        match token.kind {
            Kind::Word => form.words = self.words.saturating_add(1),
            Kind::Number => form.numbers = self.numbers.saturating_add(1),
            Kind::Level => form.levels = self.levels.saturating_add(1),
        }
        form
    }

    // Of a line with more tokens than any row has, no more is read than shows that.
    fn of(tokens: Tokens) -> Form {
        tokens.take(LONGEST + 1).fold(Form::NONE, Form::with)
    }
}

// Whether a token is the first of two words. None: it is neither.
fn is_first(token: Token, first: Word, second: Word) -> Option<bool> {
    match token.word()? {
        word if word == first => Some(true),
        word if word == second => Some(false),
        _ => None,
    }
}

fn named_field(word: Word) -> Option<Field> {
    Some(match word {
        Word::Rated => Field::Rated,
        Word::Pause => Field::Pause,
        Word::Digital => Field::Digital,
        Word::Limit => Field::Limit,
        Word::Grant => Field::Grant,
        Word::Wave => Field::Wave,
        Word::Closings => Field::Closings,
        Word::Sound => Field::Sound,
        Word::Opening => Field::Opening,
        Word::Overrun => Field::Overrun,
        Word::Stop => Field::Stop,
        Word::Line1 => Field::Line1,
        Word::Line2 => Field::Line2,
        Word::Line3 => Field::Line3,
        _ => return None,
    })
}

// What stands behind the word, up to five tokens.
#[derive(Clone, Copy)]
struct Arguments {
    a: Token,
    b: Token,
    c: Token,
    d: Token,
    e: Token,
}

impl Arguments {
    fn of(mut tokens: Tokens) -> Arguments {
        Arguments {
            a: tokens.next().unwrap_or(Token::NOTHING),
            b: tokens.next().unwrap_or(Token::NOTHING),
            c: tokens.next().unwrap_or(Token::NOTHING),
            d: tokens.next().unwrap_or(Token::NOTHING),
            e: tokens.next().unwrap_or(Token::NOTHING),
        }
    }

    // A begin without its mark means a plain post.
    fn begin(self, marked: bool) -> Option<Row<'static>> {
        Some(Row::Begin {
            time: self.a.value,
            rated: narrow(self.b.value),
            pause: self.c.value,
            ventilation: is_first(self.d, Word::Yes, Word::No)?,
            digital: marked && is_first(self.e, Word::Digital, Word::Plain)?,
        })
    }

    fn with(self) -> Option<Row<'static>> {
        Some(Row::With {
            field: named_field(self.a.word()?)?,
            value: self.b.value,
        })
    }

    // A row without a window: the word, and how many words, numbers and levels it has to have.
    fn plain(self, word: Word, form: Form) -> Option<Row<'static>> {
        let (time, number) = (self.a.value, narrow(self.b.value));
        match (word, form.words, form.numbers, form.levels) {
            (Word::Keep, 1, 0, 0) => Some(Row::Keep),
            (Word::Kept, 1, 0, 0) => Some(Row::Kept),
            (Word::Zeroed, 1, 0, 0) => Some(Row::Zeroed),
            (Word::With, 2, 1, 0) => self.with(),
            (Word::Available, 1, 1, 0) => Some(Row::Available(narrow(self.a.value))),
            (Word::Reading, 1, 1, 0) => Some(Row::Reading(narrow(self.a.value))),
            (Word::Low, 1, 1, 0) | (Word::Low, 1, 0, 1) => Some(Row::Low(level(self.a.value))),
            (Word::Sound, 1, 2, 0) | (Word::Sound, 1, 1, 1) | (Word::Sound, 1, 0, 2) => Some(
                Row::Sound {
                    high: level(self.a.value),
                    low: level(self.b.value),
                },
            ),
            (Word::Begin, 2, 3, 0) => self.begin(false),
            (Word::Begin, 3, 3, 0) => self.begin(true),
            (Word::Limit, 1, 2, 0) => Some(Row::Limit(time, number)),
            (Word::Measure, 1, 2, 0) => Some(Row::Measure(time, number)),
            (Word::Measure, 1, 4, 0) => Some(Row::MeasureLines(
                time,
                [number, narrow(self.c.value), narrow(self.d.value)],
            )),
            (Word::Link, 1, 2, 0) => Some(Row::Link(time, number)),
            (Word::Fault, 1, 2, 0) => Some(Row::Fault(time, number)),
            (Word::Clear, 1, 1, 0) => Some(Row::Clear(time)),
            (Word::Tick, 1, 1, 0) => Some(Row::Tick(time)),
            _ => None,
        }
    }
}

// A row with a window of readings: they start behind the word, or behind the time.
fn windowed<'a>(word: Word, mut tokens: Tokens, space: &'a mut [i32]) -> Option<Row<'a>> {
    if word == Word::Levels {
        return Some(Row::Levels(window(space, tokens)?));
    }
    let time = tokens.next()?.value;
    let readings = window(space, tokens)?;
    Some(match word {
        Word::Sample => Row::Sample(time, readings),
        _ => Row::Samples(time, readings),
    })
}

// Reads a row, with its readings in that space. None: it is not understood.
pub fn read<'a>(line: &[u8], space: &'a mut [i32]) -> Option<Row<'a>> {
    let form = Form::of(Tokens(line));
    let mut tokens = Tokens(line);
    match tokens.next()?.word()? {
        word @ (Word::Levels | Word::Sample | Word::Samples) if form.words == 1 => {
            windowed(word, tokens, space)
        }
        word => Arguments::of(tokens).plain(word, form),
    }
}
