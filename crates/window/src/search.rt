// The search for the levels: each reading is counted against the window until it has the support that it needs.
ghost use Rattle.std.specs.Prelude.{◌≡◌, Some};
ghost use Rattle.window.specs.Evaluation.{supported_levels};
ghost use Rattle.window.specs.Search.{inside, widen};
ghost use Rattle.window.specs.Numbers.{as_found};

use crate::support::{near, needed};
use units::{Levels, Millivolts, Quantity};

// A level lies within the levels found so far.
#[tactic(auto, unfolding(crate::specs::Search::inside, units::specs::Range::within))]
fn inside(found: Option<Levels>, level: Millivolts) -> bool
    ensures { result ≡ inside (as_found found) level.0 }
{
    found.is_some_and(|levels| level.within(levels.low, levels.high))
}

// The levels found so far, with one more supported reading.
#[tactic(auto, unfolding(crate::specs::Search::widen, units::specs::Range::higher, units::specs::Range::lower))]
fn widened(found: Option<Levels>, level: Millivolts) -> Levels
    ensures { as_found (Some result) ≡ widen (as_found found) level.0 }
{
    match found {
        None => Levels {
            high: level,
            low: level,
        },
        Some(Levels { high, low }) => Levels {
            high: high.max(level),
            low: low.min(level),
        },
    }
}

// The levels of the supported readings. A reading that lies within the levels found so far changes nothing, and is not counted
// (DECISIONS, 10).
#[tactic(auto, using(crate::proofs::Gathering::gathering, crate::proofs::Counting::counting))]
pub fn levels(window: &[i32]) -> Option<Levels>
    ensures { as_found result ≡ supported_levels window.now }
{
    let wanted = needed(window.len());
    let mut found = None;
    for reading in window {
        let level = Millivolts(*reading);
        if inside(found, level) {
            continue;
        }
        let mut count: usize = 0;
        'count: for other in window {
            if near(level, Millivolts(*other)) {
                count += 1;
                // No further supporter can change the answer.
                if count == wanted {
                    found = Some(widened(found, level));
                    break 'count;
                }
            }
        }
    }
    found
}
