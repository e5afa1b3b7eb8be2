ghost use Rattle.std.specs.Prelude.{◌≡◌, ◌≤◌, ◌<◌, ◌^◌, ◌/◌};
ghost use Rattle.global_model.specs.Tally.{IsInterval, first_tally, syncs_before, after_send, count_before};

use cs_base::time::Time;
use device_api::Count;
use std::marker::Model;

/// What went on a channel up to its last send. The null messages since then are counted by division when they
/// matter, so a send costs the same however long the channel was quiet.
#[derive(Debug, Drop)]
pub struct Tally {
    interval: Time,
    due: Time,
    count: Count,
}

impl Model for Tally {
    ghost use Rattle.global_model.specs.Tally.{TallyState, IsInterval};

    ghost Value = { TallyState };

    ghost view = { λ t. record { interval = t.interval; due = t.due; count = t.count } };

    ghost invariant = { λ t. IsInterval t.interval };
}

impl Tally {
    /// A channel on which nothing went yet.
    pub fn new(interval: Time) -> Tally
        requires { IsInterval interval }
        ensures { result ≡ first_tally interval }
    {
        Tally {
            interval,
            due: Time(0),
            count: Count { syncs: 0, sends: 0 },
        }
    }

    /// Counts a send at a time.
    pub fn send(&mut self, t: Time)
        requires { t < 10 ^ 15 }
        ensures { self.new ≡ after_send t self.old }
    {
        let at = t.picoseconds();
        let syncs = due_before(self.interval, self.due, Time(at + 1));
        self.count.syncs = self.count.syncs.saturating_add(syncs);
        self.count.sends = self.count.sends.saturating_add(1);
        self.due = Time(at + self.interval.picoseconds());
    }

    /// What went on the channel before a time, in which no send is missing.
    pub fn count_before(&self, time: Time) -> Count
        requires { time ≤ 10 ^ 15 }
        ensures { result ≡ count_before time self.now }
    {
        let syncs = due_before(self.interval, self.due, time);
        Count {
            syncs: self.count.syncs.saturating_add(syncs),
            sends: self.count.sends,
        }
    }
}

/// How many null messages are due before a time, from `due` on one each interval.
#[tactic(auto, unfolding(crate::specs::Tally::syncs_before))]
fn due_before(interval: Time, due: Time, time: Time) -> u64
    requires interval { IsInterval interval }
    requires in_run { time ≤ 10 ^ 15 }
    ensures { result ≡ syncs_before interval due time }
{
    let first = due.picoseconds();
    let before = time.picoseconds();
    if first < before {
        quotient(before - 1 - first, interval.picoseconds()) + 1
    } else {
        0
    }
}

/// A quotient. One of 0 or 1, as of two sends near each other, takes no division.
fn quotient(n: u64, by: u64) -> u64
    requires { 1 ≤ by }
    ensures { result ≡ n / by }
{
    if n < by {
        0
    } else if n - by < by {
        1
    } else {
        n / by
    }
}
