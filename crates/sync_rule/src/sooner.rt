ghost use Rattle.std.specs.Prelude.{◌≡◌};
ghost use Rattle.sync_rule.specs.Soonest.{sooner, sooner_than, sooner_at};

use crate::timer::Timer;
use cs_base::time::Time;

/// The sooner of two timers, the first where both are at the same time.
fn sooner(best: Timer, other: Timer) -> Timer
    ensures { result ≡ sooner best other }
{
    if other.at.picoseconds() < best.at.picoseconds() {
        other
    } else {
        best
    }
}

fn sooner_than(best: Option<Timer>, other: Timer) -> Timer
    ensures { result ≡ sooner_than best other }
{
    match best {
        None => other,
        Some(best) => sooner(best, other),
    }
}

/// The sooner of a timer and what is at a port that stands after it, if there is anything.
pub(crate) fn sooner_at(best: Option<Timer>, port: usize, at: Option<Time>) -> Option<Timer>
    ensures { result ≡ sooner_at best port at }
{
    match at {
        None => best,
        Some(at) => Some(sooner_than(best, Timer { at, port })),
    }
}
