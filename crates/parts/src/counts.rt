// The count of closings.
ghost use Rattle.std.specs.Prelude.{◌≡◌};
ghost use Rattle.parts.specs.Counted.{counted};

// Grows by 1 with a closing, up to the largest that 32 bits hold (DECISIONS, 33).
#[tactic(auto, unfolding(crate::specs::Counted::counted))]
pub fn counted(closing: bool, closings: u32) -> u32
    ensures { result ≡ counted closing closings }
{
    if closing {
        closings.saturating_add(1)
    } else {
        closings
    }
}
