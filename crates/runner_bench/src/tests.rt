//! Devices whose ticks neither send nor log.
ghost use Rattle.std.specs.Prelude.{◌≡◌, [], ◌∷◌, map, All, IfOk};
ghost use Rattle.runner_bench.specs.Ticker.{ticker, IsSettledTicker};

use crate::ticker::Ticker;
use cs_base::items::Items;
use cs_base::no_memory::NoMemory;
use cs_base::time::Time;
use cs_base::wiring::Wiring;
use device_api::Component;
use global_model::Global;
use std::alloc;
use std::test::Fail;

/// A wiring of two components without ports.
fn wiring_of_two(alloc: alloc::Global, end: u64) -> Result<Wiring, Fail>
    ensures { IfOk result (λ wiring. wiring.kinds ≡ [] ∷ ([] ∷ [])) }
{
    let mut kinds = Items::new(alloc);
    kinds.push(Items::new(alloc))?;
    kinds.push(Items::new(alloc))?;
    Ok(Wiring::new(Time(end), kinds, Items::new(alloc)).ok_or("no wiring")?)
}

fn two_tickers(alloc: alloc::Global, first: u64, second: u64) -> Result<Vec<Ticker>, Fail>
    ensures { IfOk result (λ devices. map ticker.ports devices.items ≡ [] ∷ ([] ∷ [])) }
{
    let mut devices = Vec::new(alloc);
    devices.push(Ticker {
        port: None,
        next: Time(first),
    })?;
    devices.push(Ticker {
        port: None,
        next: Time(second),
    })?;
    Ok(devices)
}

fn run_to_end(
    alloc: alloc::Global,
    devices: Vec<Ticker>,
    wiring: &Wiring,
) -> Result<Vec<Component<Ticker>>, NoMemory>
    requires matches { map ticker.ports devices.items ≡ wiring.now.kinds }
    requires at_start { All (λ device. IsSettledTicker device 0) devices.items }
{
    let mut run = Global::start(alloc, devices, wiring)?;
    run.advance(alloc, wiring.end)?;
    Ok(run.into_components())
}

#[test]
fn silent_ticks_run_on(rt: HostRuntime) -> Result<(), Fail> {
    // when each is due first, and when each is due after all ticks before the end: in turns, at once, and far apart
    let cases = [
        (0, 500, 10_000, 10_500),
        (0, 0, 10_000, 10_000),
        (300, 9_999, 10_300, 10_999),
        (8_000, 20_000, 10_000, 20_000),
    ];
    for (first, second, first_then, second_then) in cases {
        let wiring = wiring_of_two(rt.alloc(), 10_000)?;
        let devices = two_tickers(rt.alloc(), first, second)?;
        let components = run_to_end(rt.alloc(), devices, &wiring)?;
        let [one, two] = components.as_slice() else {
            return Err("two components".into());
        };
        assert_eq!(rt; one.device.next.picoseconds(), first_then);
        assert_eq!(rt; two.device.next.picoseconds(), second_then);
        assert!(rt; one.log.is_empty());
        assert!(rt; two.log.is_empty());
    }
    Ok(())
}
