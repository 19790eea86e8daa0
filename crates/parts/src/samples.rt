// This and the previous sample: two successive accepted samples with nothing forgotten between them.
ghost use Rattle.std.specs.Prelude.{◌≡◌};
ghost use Rattle.rules.specs.State.{no_verdict, forgotten, kept_sample};
ghost use Rattle.rules.specs.Step3Wave.{is_settled};
ghost use Rattle.rules.specs.Pairs.{paired, same_band, in_one_band, both_proven, both_diode_bad, both_unsound};
ghost use Rattle.parts.specs.Views.{as_previous, as_pair};

use pilot::verdicts::Verdict;

// The previous sample with its verdict, or none.
#[repr(C)]
#[derive(Clone, Copy, PartialEq, Eq)]
pub struct Previous {
    pub kept: bool,
    pub verdict: Verdict,
}

// A call's own verdict, and the previous sample as the call finds it.
#[derive(Clone, Copy, PartialEq, Eq)]
pub struct Pair {
    pub sampled: bool,
    pub this: Verdict,
    pub previous: Previous,
}

// The verdict of a call that is no sample.
pub fn no_verdict() -> Verdict
    ensures { result ≡ no_verdict }
{
    Verdict {
        band: 0,
        sound: false,
        proven: false,
        diodebad: false,
    }
}

// No previous sample.
pub fn forgotten() -> Previous
    ensures { as_previous result ≡ forgotten }
{
    Previous {
        kept: false,
        verdict: no_verdict(),
    }
}

// A sample that becomes the previous one.
pub fn kept_sample(verdict: Verdict) -> Previous
    ensures { as_previous result ≡ kept_sample verdict }
{
    Previous {
        kept: true,
        verdict,
    }
}

// Two samples without a band are not in one.
#[tactic(auto, unfolding(rules::specs::Pairs::same_band))]
fn same_band(a: u8, b: u8) -> bool
    ensures { result ≡ same_band a b }
{
    a != 0 && a == b
}

impl Pair {
    // A sample call with a partner.
    #[tactic(auto, unfolding(rules::specs::Pairs::paired))]
    fn paired(self) -> bool
        ensures { result ≡ paired (as_pair self) }
    {
        self.sampled && self.previous.kept
    }

    #[tactic(auto, unfolding(rules::specs::Pairs::in_one_band))]
    pub fn in_one_band(self) -> bool
        ensures { result ≡ in_one_band (as_pair self) }
    {
        self.paired() && same_band(self.previous.verdict.band, self.this.band)
    }

    // Both proven in the same band.
    #[tactic(auto, unfolding(rules::specs::Pairs::both_proven))]
    pub fn both_proven(self) -> bool
        ensures { result ≡ both_proven (as_pair self) }
    {
        self.in_one_band() && self.previous.verdict.proven && self.this.proven
    }

    #[tactic(auto, unfolding(rules::specs::Pairs::both_diode_bad))]
    pub fn both_diode_bad(self) -> bool
        ensures { result ≡ both_diode_bad (as_pair self) }
    {
        self.paired() && self.previous.verdict.diodebad && self.this.diodebad
    }

    #[tactic(auto, unfolding(rules::specs::Pairs::both_unsound))]
    pub fn both_unsound(self) -> bool
        ensures { result ≡ both_unsound (as_pair self) }
    {
        self.paired() && !self.previous.verdict.sound && !self.this.sound
    }
}

// A settled state: one of A to E.
#[tactic(auto, unfolding(rules::specs::Step3Wave::is_settled, units::specs::Range::from_to))]
pub fn is_settled(settled: u8) -> bool
    ensures { result ≡ is_settled settled }
{
    (b'A'..=b'E').contains(&settled)
}
