//! Two beacons on workers, whose link goes by queues or by proxy.
ghost use Rattle.std.specs.Prelude.{◌≡◌, ◌≤◌, ◌∷◌, [], All, map, IfOk};
ghost use Rattle.cs_base.specs.declared.port_kind.PortKind.TheVariants.{Eth as Ethernet};

use crate::pair::{beacon, is_sent, link_of, pair};
use cs_base::{Dialer, Items, OpenGate, Queue, Via, WireIn, WireOut, Wiring};
use device_api::{Beacon, Device, Outcome};
use pipe_wires::PipeDialer;
use run_threads::{Crew, Part, Queues, run_mesh};
use std::alloc::Global;
use std::sync::Wait;
use std::test::Fail;
use std::thread::Threads;

/// Two ports that are joined by a link whose queues have so many slots.
fn pair_by(alloc: Global, slots: u32, via: Via) -> Result<Wiring, Fail>
    ensures { IfOk result (λ wiring. wiring.kinds ≡ (Ethernet ∷ []) ∷ ((Ethernet ∷ []) ∷ [])) }
{
    let mut link = link_of(500, 500);
    link.slots = slots;
    link.via = via;
    pair(alloc, 2600, link)
}

/// When the components log their lines, first those of one and then those of the other, of two devices on so many workers.
fn logged<R, V, O, I, D>(
    rt: &R,
    alloc: Global,
    devices: Vec<V>,
    wiring: &Wiring,
    workers: u32,
    dialer: &mut D,
) -> Result<Vec<u64>, Fail>
where
    R: Threads + Wait + Sync,
    V: Device + Send,
    O: WireOut + Drop + Send,
    I: WireIn + Drop + Send,
    D: Dialer<Out = O, In = I>,
    requires matches { map V.behaviour.ports devices.items ≡ wiring.now.kinds }
    requires at_start { All (λ device. V.settled device 0) devices.items }
    requires workers { (1 ≤ workers) × (workers ≤ 64) }
{
    let made = Queues::build(alloc, wiring)?;
    let Queues {
        queues,
        producers,
        consumers,
    } = made;
    let mut crew = Crew::build(
        alloc,
        queues.as_slice(),
        producers,
        consumers,
        devices,
        wiring,
        workers,
        dialer,
    )?;
    let ended = run_mesh(rt, alloc, &mut crew, &OpenGate).is_ok();
    let (outcome, senders, receivers, ends) = crew.finish();
    if !ended || senders.len() != 2 + ends.len() || receivers.len() != 2 + ends.len() {
        Err("no end")?;
    }
    times_of(alloc, &outcome)
}

/// When the components logged their lines.
fn times_of(alloc: Global, outcome: &Outcome) -> Result<Vec<u64>, Fail> {
    let mut times = Vec::new(alloc);
    for lines in outcome.logs.lists.as_slice() {
        for line in lines.as_slice() {
            times.push(line.at.0)?;
        }
    }
    Ok(times)
}

/// The same of two beacons that are joined by a link whose queues have so many slots.
fn logged_by_pair<R: Threads + Wait + Sync>(
    rt: &R,
    alloc: Global,
    slots: u32,
    via: Via,
    workers: u32,
) -> Result<Vec<u64>, Fail>
    requires workers { (1 ≤ workers) × (workers ≤ 64) }
{
    let wiring = pair_by(alloc, slots, via)?;
    let a = beacon(alloc, 2)?;
    let b = beacon(alloc, 1)?;
    let mut devices = Vec::new(alloc);
    devices.push(a)?;
    devices.push(b)?;
    let mut dialer = PipeDialer::new(alloc, Queue::new(alloc), Items::new(alloc));
    logged(rt, alloc, devices, &wiring, workers, &mut dialer)
}

#[test]
fn each_channel_has_a_queue(rt: HostRuntime) -> Result<(), Fail> {
    let wiring = pair_by(rt.alloc(), 2, Via::Queue)?;
    let made = Queues::build(rt.alloc(), &wiring)?;
    assert_eq!(rt; made.queues.len(), 2);
    assert_eq!(rt; made.producers.len(), 2);
    assert_eq!(rt; made.consumers.len(), 2);
    Ok(())
}

#[test]
fn components_may_go_to_threads(_rt: HostRuntime) {
    is_sent::<Part<'static, Beacon>>();
}

#[test]
fn two_beacons_run_to_their_end_on_any_workers(rt: HostRuntime) -> Result<(), Fail> {
    let times = [1000, 1500, 2000, 1000, 1500, 2500];
    for workers in [1, 2, 3] {
        for slots in [1, 2] {
            let logged = logged_by_pair(&rt, rt.alloc(), slots, Via::Queue, workers)?;
            assert_eq!(rt; logged.as_slice(), times.as_slice(), "{workers} workers");
        }
    }
    Ok(())
}

#[test]
fn two_beacons_run_by_proxy_to_the_same_end(rt: HostRuntime) -> Result<(), Fail> {
    let times = [1000, 1500, 2000, 1000, 1500, 2500];
    for workers in [1, 2, 3] {
        let logged = logged_by_pair(&rt, rt.alloc(), 2, Via::Proxy, workers)?;
        assert_eq!(rt; logged.as_slice(), times.as_slice(), "{workers} workers");
    }
    Ok(())
}
