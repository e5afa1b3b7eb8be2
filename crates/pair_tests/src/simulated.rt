//! Two beacons by the global simulator, in one go and in parts.
ghost use Rattle.std.specs.Prelude.{◌≡◌, ◌≤◌, ◌^◌, ◌∷◌, [], All, map, min};
ghost use Rattle.cs_base.specs.declared.port_kind.PortKind.TheVariants.{Eth as Ethernet};

use crate::pair::{beacon, is_sent, link_of, pair};
use cs_base::{NoMemory, Time, Wiring};
use device_api::{Beacon, Device, Logs, Outcome};
use global_model::{Global, simulate};
use std::alloc;
use std::test::Fail;

/// The first of two times.
fn first_of(a: Time, b: Time) -> Time
    ensures { result ≡ min a b }
{
    a.min(b)
}

fn run_pair(alloc: alloc::Global, wiring: &Wiring, a: u32, b: u32) -> Result<Outcome, Fail>
    requires matches { wiring.now.kinds ≡ (Ethernet ∷ []) ∷ ((Ethernet ∷ []) ∷ []) }
    requires a_few { a ≤ 10 ^ 9 }
    requires b_few { b ≤ 10 ^ 9 }
{
    let a = beacon(alloc, a)?;
    let b = beacon(alloc, b)?;
    let mut devices = Vec::new(alloc);
    devices.push(a)?;
    devices.push(b)?;
    Ok(simulate(alloc, devices, wiring)?)
}

/// A run that stops on its way.
fn simulate_in_parts<V: Device>(
    alloc: alloc::Global,
    devices: Vec<V>,
    wiring: &Wiring,
    middle: Time,
) -> Result<Outcome, NoMemory>
    requires matches { map V.behaviour.ports devices.items ≡ wiring.now.kinds }
    requires at_start { All (λ device. V.settled device 0) devices.items }
{
    let mut run = Global::start(alloc, devices, wiring)?;
    let middle = first_of(middle, wiring.end);
    run.advance(alloc, middle)?;
    run.advance(alloc, wiring.end)?;
    run.into_outcome(alloc)
}

fn run_pair_in_parts(alloc: alloc::Global, wiring: &Wiring, middle: Time) -> Result<Outcome, Fail>
    requires { wiring.now.kinds ≡ (Ethernet ∷ []) ∷ ((Ethernet ∷ []) ∷ []) }
{
    let a = beacon(alloc, 2)?;
    let b = beacon(alloc, 0)?;
    let mut devices = Vec::new(alloc);
    devices.push(a)?;
    devices.push(b)?;
    Ok(simulate_in_parts(alloc, devices, wiring, middle)?)
}

fn assert_log(rt: &impl std::process::Abort, logs: &Logs, component: usize, lines: &[(u64, &str)]) {
    let log = logs
        .lists
        .as_slice()
        .get(component)
        .map_or(0, |log| log.len());
    assert_eq!(rt; log, lines.len());
    for (i, (at, text)) in lines.iter().enumerate() {
        let Some(log) = logs.lists.as_slice().get(component) else {
            return
        };
        let Some(line) = log.as_slice().get(i) else {
            return
        };
        assert_eq!(rt; line.at.picoseconds(), *at);
        assert_eq!(rt; line.text.as_slice(), text.as_bytes());
    }
}

#[test]
fn one_sends_and_the_other_receives(rt: HostRuntime) -> Result<(), Fail> {
    let wiring = pair(rt.alloc(), 2600, link_of(500, 500))?;
    let outcome = run_pair(rt.alloc(), &wiring, 2, 0)?;
    assert_log(&rt, &outcome.logs, 0, &[(1000, "tx 60"), (2000, "tx 60")]);
    assert_log(&rt, &outcome.logs, 1, &[(1500, "rx 60"), (2500, "rx 60")]);
    Ok(())
}

#[test]
fn an_event_at_the_end_is_not_processed(rt: HostRuntime) -> Result<(), Fail> {
    let wiring = pair(rt.alloc(), 2500, link_of(500, 500))?;
    let outcome = run_pair(rt.alloc(), &wiring, 2, 0)?;
    assert_log(&rt, &outcome.logs, 0, &[(1000, "tx 60"), (2000, "tx 60")]);
    assert_log(&rt, &outcome.logs, 1, &[(1500, "rx 60")]);
    Ok(())
}

#[test]
fn a_run_goes_on_from_where_it_stands(rt: HostRuntime) -> Result<(), Fail> {
    let wiring = pair(rt.alloc(), 2600, link_of(500, 500))?;
    for middle in [0, 1000, 1500, 2600] {
        let outcome = run_pair_in_parts(rt.alloc(), &wiring, Time(middle))?;
        assert_log(&rt, &outcome.logs, 0, &[(1000, "tx 60"), (2000, "tx 60")]);
        assert_log(&rt, &outcome.logs, 1, &[(1500, "rx 60"), (2500, "rx 60")]);
    }
    Ok(())
}

#[test]
fn null_messages_are_counted(rt: HostRuntime) -> Result<(), Fail> {
    // latency, interval, null messages where two frames are sent, and where none is
    let cases = [(500, 500, 6, 6), (700, 300, 8, 9)];
    for (latency, interval, beside, alone) in cases {
        let wiring = pair(rt.alloc(), 2600, link_of(latency, interval))?;
        let outcome = run_pair(rt.alloc(), &wiring, 2, 0)?;
        let [there, back] = outcome.counts.as_slice() else {
            return Ok(())
        };
        assert_eq!(rt; (there.syncs, there.sends), (beside, 2));
        assert_eq!(rt; (back.syncs, back.sends), (alone, 0));
    }
    Ok(())
}

#[test]
fn runs_may_go_to_threads(_rt: HostRuntime) {
    is_sent::<Global<Beacon>>();
}
