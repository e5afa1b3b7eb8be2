ghost use Rattle.std.specs.Prelude.{◌≡◌};
ghost use Rattle.sync_rule.specs.Times.{time_of};
ghost use Rattle.sync_rule.specs.Choice.{take_or_tick, earlier_of, sync_or_later, chosen};

use crate::next::Next;
use crate::timer::Timer;
use cs_base::time::Time;

/// When it happens.
pub(crate) fn time_of(next: &Next) -> Time
    ensures { result ≡ time_of next.now }
{
    match next {
        Next::Sync { at, .. } | Next::Take { at, .. } | Next::Tick { at } => *at,
    }
}

/// The take where it isn't after the tick.
fn take_or_tick(head: Timer, due: Time) -> Next
    ensures { result ≡ take_or_tick head due }
{
    if head.at.picoseconds() <= due.picoseconds() {
        Next::Take {
            port: head.port,
            at: head.at,
        }
    } else {
        Next::Tick { at: due }
    }
}

/// The first of the soonest message that waits and the device's due time.
fn earlier_of(head: Option<Timer>, due: Option<Time>) -> Option<Next>
    ensures { result ≡ earlier_of head due }
{
    match (head, due) {
        (None, None) => None,
        (Some(head), None) => Some(Next::Take {
            port: head.port,
            at: head.at,
        }),
        (None, Some(due)) => Some(Next::Tick { at: due }),
        (Some(head), Some(due)) => Some(take_or_tick(head, due)),
    }
}

/// The null message where it isn't after the other.
fn sync_or_later(timer: Timer, later: Next) -> Next
    ensures { result ≡ sync_or_later timer later }
{
    if timer.at.picoseconds() <= time_of(&later).picoseconds() {
        Next::Sync {
            port: timer.port,
            at: timer.at,
        }
    } else {
        later
    }
}

/// The first of the soonest null message, the soonest message that waits, and the device's due time.
pub(crate) fn chosen(timer: Option<Timer>, head: Option<Timer>, due: Option<Time>) -> Option<Next>
    ensures { result ≡ chosen timer head due }
{
    match (timer, earlier_of(head, due)) {
        (None, later) => later,
        (Some(timer), None) => Some(Next::Sync {
            port: timer.port,
            at: timer.at,
        }),
        (Some(timer), Some(later)) => Some(sync_or_later(timer, later)),
    }
}
