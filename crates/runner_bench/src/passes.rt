//! Ticks, one at a time, in a row, and by the global run.
ghost use Rattle.std.specs.Prelude.{◌≡◌, ◌≤◌, ◌^◌, IfOk, IfSome, None, [], ◌∷◌};
ghost use Rattle.sync_rule.specs.Events.{IsReadyThroughout};
ghost use Rattle.runner_bench.specs.Ticker.{ticker, IsSettledTicker};

use crate::ticker::{PERIOD, Ticker};
use cs_base::items::Items;
use cs_base::no_memory::NoMemory;
use cs_base::time::Time;
use cs_base::wiring::Wiring;
use global_model::simulate;
use std::alloc::Global;
use sync_laws::{a_new_runner_stands, what_stands_is_ready_throughout};
use sync_rule::Runner;

/// The end of a run of so many ticks, of one at least.
fn end_of(count: u32) -> Time
    ensures { (1 ≤ result) × (result ≤ 10 ^ 15) }
{
    Time(u64::from(count.max(1)) * PERIOD)
}

/// A device without ports, due at once.
fn ticker_alone() -> Ticker
    ensures { result ≡ record { port = None; next = 0 } }
{
    Ticker {
        port: None,
        next: Time(0),
    }
}

/// A runner of a device that ticks alone.
fn new_runner(alloc: Global, count: u32) -> Result<Runner<Ticker>, NoMemory>
    ensures { IfOk result (IsReadyThroughout ticker IsSettledTicker) }
{
    a_new_runner_stands::<Ticker>();
    what_stands_is_ready_throughout::<Ticker>();
    Runner::new(alloc, ticker_alone(), Vec::new(alloc), end_of(count))
}

/// One look at the runner's ports for each tick.
pub fn by_event(alloc: Global, count: u32) -> Result<u64, NoMemory> {
    let mut runner = new_runner(alloc, count)?;
    let mut ran = 0;
    'ticks: while ran < u64::from(count) {
        if !runner.event(alloc)? {
            return Ok(ran);
        }
        ran += 1;
    }
    Ok(ran)
}

/// From tick to tick.
pub fn by_events(alloc: Global, count: u32) -> Result<u64, NoMemory> {
    let mut runner = new_runner(alloc, count)?;
    runner.events(alloc, u64::from(count))
}

/// A wiring of one component without ports.
fn wiring_of_one(alloc: Global, count: u32) -> Result<Option<Wiring>, NoMemory>
    ensures { IfOk result (λ found. IfSome found (λ wiring. wiring.kinds ≡ [] ∷ [])) }
{
    let mut kinds = Items::new(alloc);
    kinds.push(Items::new(alloc))?;
    Ok(Wiring::new(end_of(count), kinds, Items::new(alloc)))
}

/// The global run of one component.
pub fn by_simulate(alloc: Global, count: u32) -> Result<u64, NoMemory> {
    let Some(wiring) = wiring_of_one(alloc, count)? else {
        return Ok(0);
    };
    let mut devices = Vec::new(alloc);
    devices.push(ticker_alone())?;
    simulate(alloc, devices, &wiring)?;
    Ok(u64::from(count))
}
