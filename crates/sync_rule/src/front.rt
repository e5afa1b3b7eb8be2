ghost use Rattle.std.specs.Prelude.{◌≡◌, ◌<◌, ◌+◌, ◌^◌, Some, IfSome};
ghost use Rattle.sync_rule.specs.Times.{time_of, needed_for};
ghost use Rattle.sync_rule.specs.Looks.{has_heard, enabled_next, needed_at, is_over, lesser_of, calm_until};

use crate::choose::time_of;
use crate::next::Next;
use crate::timer::Timer;
use cs_base::time::Time;

/// What one look at a component's ports and its device tells.
#[derive(Clone, Copy)]
pub struct Front {
    /// What is next.
    pub next: Option<Next>,
    /// The least bound of the ports where nothing waits.
    pub quiet: Option<Timer>,
    /// Whether a message waits to be sent.
    pub waits: bool,
    /// Until when only the device may be due.
    pub calm: Time,
}

/// Whether the ports where nothing waits have heard so far.
fn has_heard(quiet: Option<Timer>, needed: Time) -> bool
    ensures { result ≡ has_heard quiet needed }
{
    match quiet {
        None => true,
        Some(quiet) => needed.picoseconds() <= quiet.at.picoseconds(),
    }
}

/// How far they must have heard for an event.
fn needed_for(next: &Next) -> Time
    requires { time_of next.now + 1 < 2 ^ 64 }
    ensures { result ≡ needed_for next.now }
{
    match next {
        Next::Sync { at, .. } => *at,
        Next::Take { at, .. } | Next::Tick { at } => Time(at.picoseconds() + 1),
    }
}

/// The next event, if it is before the end and the ports have heard far enough.
fn enabled_next(next: Next, quiet: Option<Timer>, end: Time) -> Option<Next>
    ensures { result ≡ enabled_next next quiet end }
{
    if time_of(&next).picoseconds() < end.picoseconds() {
        if has_heard(quiet, needed_for(&next)) {
            Some(next)
        } else {
            None
        }
    } else {
        None
    }
}

/// How far the ports must have heard for this to be processed, or for the run to end.
fn needed_before(next: Next, end: Time) -> Time
    ensures { result ≡ needed_at (Some next) end }
{
    if time_of(&next).picoseconds() < end.picoseconds() {
        needed_for(&next)
    } else {
        end
    }
}

fn is_over(next: Option<Next>, end: Time) -> bool
    ensures { result ≡ is_over next end }
{
    match next {
        None => true,
        Some(next) => end.picoseconds() <= time_of(&next).picoseconds(),
    }
}

/// The lesser of a time and a timer's, if there is one.
fn lesser_of(time: Time, timer: Option<Timer>) -> Time
    ensures { result ≡ lesser_of time timer }
{
    match timer {
        None => time,
        Some(timer) => {
            if timer.at.picoseconds() < time.picoseconds() {
                timer.at
            } else {
                time
            }
        }
    }
}

/// Until when only the device may be due, by the soonest null message, the soonest message that
/// waits, the least bound where none waits, and the end.
pub fn calm_until(
    timer: Option<Timer>,
    head: Option<Timer>,
    quiet: Option<Timer>,
    end: Time,
) -> Time
    ensures { result ≡ calm_until timer head quiet end }
{
    lesser_of(lesser_of(lesser_of(end, timer), head), quiet)
}

/// A due time that is before another.
pub fn due_before(due: Option<Time>, until: Time) -> Option<Time>
    ensures { IfSome result (λ at. (due ≡ Some at) × (at < until)) }
{
    let at = due?;
    if at.picoseconds() < until.picoseconds() {
        Some(at)
    } else {
        None
    }
}

impl Front {
    ghost use Rattle.sync_rule.specs.Looks.{enabled, is_all_done};

    /// The event that may be processed.
    pub fn enabled(&self, end: Time) -> Option<Next>
        ensures { result ≡ enabled self.now.waits self.now.next self.now.quiet end }
    {
        if self.waits {
            return None;
        }
        enabled_next(self.next?, self.quiet, end)
    }

    /// Whether the component has ended.
    pub fn ended(&self, end: Time) -> bool
        ensures { result ≡ is_all_done self.now.waits self.now.next self.now.quiet end }
    {
        !self.waits && is_over(self.next, end) && has_heard(self.quiet, end)
    }

    /// How far the ports where nothing waits must have heard for the component to go on, or to have ended.
    pub fn needed(&self, end: Time) -> Time
        ensures { result ≡ needed_at self.now.next end }
    {
        match self.next {
            None => end,
            Some(next) => needed_before(next, end),
        }
    }
}
