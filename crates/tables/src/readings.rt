// Windows of readings to evaluate.
ghost use Rattle.std.specs.Prelude.{◌<◌, ◌≤◌, length, IfSome};

use crate::numbers::level;
use crate::text::Tokens;

// Puts the readings of up to 40 runs into the space, as many as it holds. There is no window with more runs, or with no reading.
pub fn window<'a>(space: &'a mut [i32], runs: Tokens) -> Option<&'a [i32]>
    ensures some { IfSome result (λ w. 0 < length w.now) }
    ensures within { IfSome result (λ w. length w.now ≤ length space.old) }
{
    if runs.take(41).count() > 40 {
        return None;
    }
    let mut end = 0;
    for run in runs {
        space[end..].fill(level(run.value));
        end = end.saturating_add(run.readings).min(space.len());
    }
    if end == 0 { None } else { Some(&space[..end]) }
}
