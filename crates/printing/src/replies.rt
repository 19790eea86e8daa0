// The reply to a call as text.
use parts::lines::Lines;
use parts::replies::Reply;
use std::fmt;

// The current on each line.
#[derive(Clone, Copy)]
struct Currents(Lines);

impl fmt::Display for Currents {
    fn fmt<W: fmt::Write>(&self, f: &mut fmt::Formatter<W>) -> fmt::Result {
        let Lines {
            line1,
            line2,
            line3,
        } = self.0;
        write!(f, "lines {} {} {}", line1.0, line2.0, line3.0)
    }
}

// What a reply tells of the controller. A refusal that comes alone has no letter.
#[derive(Clone, Copy)]
struct Told(Reply);

impl fmt::Display for Told {
    fn fmt<W: fmt::Write>(&self, f: &mut fmt::Formatter<W>) -> fmt::Result {
        let r = self.0;
        if r.letter == 0 {
            return write!(f, "alone");
        }
        let letter = char::from(r.letter);
        let contactor = if r.closed { "closed" } else { "open  " };
        write!(f, "{letter}{}  wave {:4}  {contactor}", r.digit, r.wave)?;
        write!(f, "  fault {}  closings {}", r.fault, r.closings)?;
        write!(f, "  {}", Currents(r.lines))
    }
}

// A reply, with whether its call left the controller as it was lent.
#[derive(Clone, Copy)]
pub struct Outcome {
    pub reply: Reply,
    pub unchanged: bool,
}

impl fmt::Display for Outcome {
    fn fmt<W: fmt::Write>(&self, f: &mut fmt::Formatter<W>) -> fmt::Result {
        match self.reply.refusal {
            0 => write!(f, "accepted ")?,
            number => write!(f, "refused {number}")?,
        }
        let change = if self.unchanged {
            "unchanged"
        } else {
            "changed"
        };
        write!(f, "  {}  controller {change}", Told(self.reply))
    }
}
