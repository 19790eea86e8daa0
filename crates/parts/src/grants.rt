// The current granted by link, and what a digital post asks of it.
ghost use Rattle.std.specs.Prelude.{◌≡◌};
ghost use Rattle.rules.specs.Refusals.{grant_allowed};
ghost use Rattle.rules.specs.Step3Wave.{low_grant};
ghost use Rattle.rules.specs.Step5Closing.{has_grant};

use units::Milliamps;

// The range of a grant.
#[tactic(auto, unfolding(rules::specs::Refusals::grant_allowed))]
pub fn grant_allowed(granted: Milliamps) -> bool
    ensures { result ≡ grant_allowed granted.0 }
{
    granted <= Milliamps(80000)
}

// A digital post closes with at least 6,000.
#[tactic(auto, unfolding(rules::specs::Step5Closing::has_grant))]
pub fn has_grant(digital: bool, grant: Milliamps) -> bool
    ensures { result ≡ has_grant digital grant.0 }
{
    !digital || Milliamps(6000) <= grant
}

// Closed with less, it stops its van.
#[tactic(auto, unfolding(rules::specs::Step3Wave::low_grant))]
pub fn low_grant(digital: bool, closed: bool, grant: Milliamps) -> bool
    ensures { result ≡ low_grant digital closed grant.0 }
{
    digital && closed && grant < Milliamps(6000)
}
