//! Times messages through a slot queue, and the same messages through the ring of `rtrb`, on one thread and between two.
#![tactic(auto)]

mod ring;
mod slots;

use ring::{ring_between, ring_through};
use slots::{queue_between, queue_through};
use std::alloc::Global;
use std::sync::Wait;
use std::thread::Threads;
use std::time::Instant;
use std::{env, io};

/// Slots of the queue and places of the ring.
const SLOTS: u32 = 64;

/// Measurements of which the fastest counts.
const ROUNDS: u32 = 3;

#[derive(Clone, Copy)]
enum Way {
    QueueAlone,
    RingAlone,
    QueueBetween,
    RingBetween,
}

impl Way {
    fn name(self) -> &'static str {
        match self {
            Way::QueueAlone => "slot queue, one thread",
            Way::RingAlone => "rtrb, one thread",
            Way::QueueBetween => "slot queue, two threads",
            Way::RingBetween => "rtrb, two threads",
        }
    }

    /// Passes so many messages, and says how many came out. None where memory is wanting.
    fn pass<R: Threads + Wait + Sync>(self, rt: &R, alloc: Global, count: u32) -> Option<u64> {
        match self {
            Way::QueueAlone => queue_through(alloc, SLOTS, count).ok(),
            Way::RingAlone => ring_through(alloc, SLOTS, count).ok(),
            Way::QueueBetween => queue_between(rt, alloc, SLOTS, count).ok(),
            Way::RingBetween => ring_between(rt, alloc, SLOTS, count).ok(),
        }
    }
}

/// One line: the nanoseconds of a message, by the fastest of some measurements.
fn report<R: Threads + Wait + Sync>(
    host: &HostRuntime,
    rt: &R,
    way: Way,
    count: u32,
) -> io::Result<()> {
    let mut best = u64::MAX;
    let mut passed = None;
    for _ in 0..ROUNDS {
        let began = Instant::now(host)?;
        passed = way.pass(rt, host.alloc(), count);
        let took = u64::try_from(began.elapsed(host)?.as_nanos()).unwrap_or(u64::MAX);
        best = best.min(took);
    }
    let each = best.checked_div(u64::from(count)).unwrap_or(0);
    let name = way.name();
    match passed {
        Some(passed) => println!(host; "{name}: {passed} messages, {each} ns a message"),
        None => println!(host; "{name}: no memory"),
    }
}

fn main(rt: HostRuntime) -> io::Result<()> {
    for word in env::args(&rt)?.skip(1) {
        let Ok(count) = word.as_str().parse::<u32>() else {
            continue;
        };
        report(&rt, &rt, Way::QueueAlone, count)?;
        report(&rt, &rt, Way::RingAlone, count)?;
        report(&rt, &rt, Way::QueueBetween, count)?;
        report(&rt, &rt, Way::RingBetween, count)?;
    }
    Ok(())
}
