// The reply: what is shown of a controller, beside the refusal number.
ghost use Rattle.std.specs.Prelude.{◌≡◌};
ghost use Rattle.rules.specs.Answer.{alone};
ghost use Rattle.rules.specs.Reply.{letter, digit};
ghost use Rattle.parts.specs.Views.{as_reply};

use crate::lines::Lines;
use crate::samples;

#[repr(C)]
#[derive(Clone, Copy, PartialEq, Eq)]
pub struct Reply {
    // 0 if the call was accepted
    pub refusal: u8,
    // A to F or U, in ASCII; 0 in a refusal that comes alone
    pub letter: u8,
    pub digit: u8,
    pub wave: u32,
    pub closed: bool,
    // the first of the latched faults; 0 if none is latched
    pub fault: u8,
    pub closings: u32,
    // those of the last accepted measure
    pub lines: Lines,
}

// F under a fault, and U where nothing is settled.
#[tactic(auto, unfolding(rules::specs::Reply::letter))]
pub fn letter(faulted: bool, settled: u8) -> u8
    ensures { result ≡ letter faulted settled }
{
    if faulted {
        b'F'
    } else if samples::is_settled(settled) {
        settled
    } else {
        b'U'
    }
}

// 0 for U, E and F, else 2 with a driven wave and 1 without.
#[tactic(auto, unfolding(rules::specs::Reply::digit))]
pub fn digit(letter: u8, driven: bool) -> u8
    ensures { result ≡ digit letter driven }
{
    match letter {
        b'U' | b'E' | b'F' => 0,
        _ if driven => 2,
        _ => 1,
    }
}

// A refusal that comes alone: zeros beside the number.
pub fn alone(number: u8) -> Reply
    ensures { as_reply result ≡ alone number }
{
    Reply {
        refusal: number,
        letter: 0,
        digit: 0,
        wave: 0,
        closed: false,
        fault: 0,
        closings: 0,
        lines: Lines::none(),
    }
}
