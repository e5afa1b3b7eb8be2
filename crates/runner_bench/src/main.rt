//! Times the events of a device that ticks alone: one at a time, in a row, and by the global run.
#![tactic(auto)]

mod passes;
mod ticker;

use cs_base::no_memory::NoMemory;
use passes::{by_event, by_events, by_simulate};
use std::alloc::Global;
use std::time::Instant;
use std::{env, io};

/// Measurements of which the fastest counts.
const ROUNDS: u32 = 5;

#[derive(Clone, Copy)]
enum Way {
    Event,
    Events,
    Simulate,
}

impl Way {
    fn name(self) -> &'static str {
        match self {
            Way::Event => "event",
            Way::Events => "events",
            Way::Simulate => "simulate",
        }
    }

    /// So many ticks, and how many there were.
    fn pass(self, alloc: Global, count: u32) -> Result<u64, NoMemory> {
        match self {
            Way::Event => by_event(alloc, count),
            Way::Events => by_events(alloc, count),
            Way::Simulate => by_simulate(alloc, count),
        }
    }
}

/// One line: the picoseconds of an event, by the fastest of some measurements.
fn report(rt: &HostRuntime, way: Way, count: u32) -> io::Result<()> {
    let mut best = u64::MAX;
    let mut passed = None;
    for _ in 0..ROUNDS {
        let began = Instant::now(rt)?;
        passed = way.pass(rt.alloc(), count).ok();
        let took = u64::try_from(began.elapsed(rt)?.as_nanos()).unwrap_or(u64::MAX);
        best = best.min(took);
    }
    let each = best
        .saturating_mul(1000)
        .checked_div(u64::from(count))
        .unwrap_or(0);
    let name = way.name();
    match passed {
        Some(passed) => println!(rt; "{name}: {passed} ticks, {each} ps a tick"),
        None => println!(rt; "{name}: no memory"),
    }
}

fn main(rt: HostRuntime) -> io::Result<()> {
    for word in env::args(&rt)?.skip(1) {
        let Ok(count) = word.as_str().parse::<u32>() else {
            continue;
        };
        report(&rt, Way::Event, count)?;
        report(&rt, Way::Events, count)?;
        report(&rt, Way::Simulate, count)?;
    }
    Ok(())
}

#[cfg(test)]
mod tests;
