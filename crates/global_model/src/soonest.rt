ghost use Rattle.std.specs.Prelude.{◌≡◌, ◌<◌, ℕ, min, IsSome};
ghost use Rattle.moment_tree.specs.Dues.{sooner as sooner_of};
ghost use Rattle.global_model.specs.Inboxes.{port_of, end_at, IsSoonest};
ghost use Rattle.global_model.specs.Step.{late_of};
ghost use Rattle.global_model.specs.Turn.{inputs_of};

use crate::inboxes::Inboxes;
use cs_base::time::Time;

/// The latest end of a run.
pub const LATEST: Time = Time(1_000_000_000_000_000);

/// A due time that is cut to the latest end of a run.
pub fn late(due: Option<Time>) -> Time
    ensures { result ≡ late_of due }
{
    match due {
        Some(at) => at.min(LATEST),
        None => LATEST,
    }
}

/// The first time at which something waits at the ports of a component, or `late` where nothing waits before it.
pub fn soonest(inboxes: &Inboxes, component: u32, ports: u32, late: Time) -> Time
    requires { (p : ℕ) → p < ports → IsSome (port_of inboxes.now (end_at component p)) }
    ensures { IsSoonest late ports (inputs_of inboxes.now component) result }
{
    let mut next = late;
    let mut port = inboxes.filled_from(component, 0, ports);
    'filled: while port < ports {
        next = sooner(next, inboxes.first_at(component, port));
        port = inboxes.filled_from(component, port + 1, ports);
    }
    next
}

/// The first of two times.
pub fn first_of(a: Time, b: Time) -> Time
    ensures { result ≡ min a b }
{
    a.min(b)
}

/// The first of a time and of one that there may be.
pub fn sooner(time: Time, other: Option<Time>) -> Time
    ensures { result ≡ sooner_of time other }
{
    match other {
        Some(at) => time.min(at),
        None => time,
    }
}
