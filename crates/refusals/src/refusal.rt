// The refusals, by their numbers.
ghost use Rattle.std.specs.Prelude.{◌≡◌};
ghost use Rattle.refusals.specs.Numbers.{number_of};
ghost use Rattle.refusals.specs.declared.refusal.Refusal.TheVariants.{Window};

use window::Refused;

#[derive(Clone, Copy, PartialEq, Eq)]
pub enum Refusal {
    // 1: settings out of range at begin, or a controller that something else wrote into.
    Settings,
    // 2: a time before that of the last accepted call.
    Earlier,
    // 3: a time above the largest.
    Late,
    // 4, 5 and 6: the window.
    Window(Refused),
    // 7: a line above 200,000.
    Measure,
    // 8: a fault that is not for the host to tell.
    Kind,
    // 11: a grant above 80,000.
    Grant,
    // 12: a link call to a plain post.
    Plain,
    // 13: a limit above 80,000.
    Limit,
}

impl From<Refused> for Refusal {
    ghost from_gives = { λ refused refusal. refusal ≡ Window refused };

    fn from(refused: Refused) -> Refusal {
        Refusal::Window(refused)
    }
}

impl Refusal {
    pub fn number(self) -> u8
        ensures { result ≡ number_of self }
    {
        match self {
            Refusal::Settings => 1,
            Refusal::Earlier => 2,
            Refusal::Late => 3,
            Refusal::Window(Refused::Length) => 4,
            Refusal::Window(Refused::Range) => 5,
            Refusal::Window(Refused::Support) => 6,
            Refusal::Measure => 7,
            Refusal::Kind => 8,
            Refusal::Grant => 11,
            Refusal::Plain => 12,
            Refusal::Limit => 13,
        }
    }
}
