// The words of a row.
#[derive(Clone, Copy, PartialEq, Eq)]
pub enum Word {
    // Calls, and a begin's ventilation and mark.
    Begin,
    Sample,
    Samples,
    Limit,
    Measure,
    Link,
    Fault,
    Clear,
    Tick,
    Yes,
    No,
    Digital,
    Plain,
    // Single functions.
    Available,
    Reading,
    Sound,
    Low,
    Levels,
    // Which controller is lent.
    Keep,
    Kept,
    With,
    Zeroed,
    // A field to alter; Limit, Sound and Digital are fields too.
    Rated,
    Pause,
    Grant,
    Wave,
    Closings,
    Opening,
    Overrun,
    Stop,
    Line1,
    Line2,
    Line3,
}

// Letters that spell no word.
#[derive(Clone, Copy, PartialEq, Eq)]
pub struct NoWord;

impl TryFrom<&[u8]> for Word {
    type Error = NoWord;

    ghost use Rattle.tables.specs.Words.{Spells};

    ghost try_from_gives = { Spells };

    // From its last eight letters, which tell the words apart.
    fn try_from(letters: &[u8]) -> Result<Word, NoWord> {
        Ok(match letters {
            b"begin" => Word::Begin,
            b"sample" => Word::Sample,
            b"samples" => Word::Samples,
            b"limit" => Word::Limit,
            b"measure" => Word::Measure,
            b"link" => Word::Link,
            b"fault" => Word::Fault,
            b"clear" => Word::Clear,
            b"tick" => Word::Tick,
            b"yes" => Word::Yes,
            b"no" => Word::No,
            b"digital" => Word::Digital,
            b"plain" => Word::Plain,
            b"vailable" => Word::Available,
            b"reading" => Word::Reading,
            b"sound" => Word::Sound,
            b"low" => Word::Low,
            b"levels" => Word::Levels,
            b"keep" => Word::Keep,
            b"kept" => Word::Kept,
            b"with" => Word::With,
            b"zeroed" => Word::Zeroed,
            b"rated" => Word::Rated,
            b"pause" => Word::Pause,
            b"grant" => Word::Grant,
            b"wave" => Word::Wave,
            b"closings" => Word::Closings,
            b"opening" => Word::Opening,
            b"overrun" => Word::Overrun,
            b"stop" => Word::Stop,
            b"line1" => Word::Line1,
            b"line2" => Word::Line2,
            b"line3" => Word::Line3,
            _ => return Err(NoWord),
        })
    }
}
