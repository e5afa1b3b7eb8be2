//! Beacons that are joined by a link of queues, each driven by turns on one thread.
ghost use Rattle.std.specs.Prelude.{◌≡◌, ◌≤◌, ◌^◌, ◌∷◌, [], IfOk};
ghost use Rattle.cs_base.specs.Plan.{partner};
ghost use Rattle.cs_base.specs.declared.port_kind.PortKind.TheVariants.{Eth as Ethernet};
ghost use Rattle.device_api.specs.Beacon.{IsSettledBeacon};
ghost use Rattle.slot_queue.specs.Ends.{new_sender, new_receiver};
ghost use Rattle.sync_rule.specs.Ports.{IsPlanned};
ghost use Rattle.sync_drive.specs.Standing.{IsFit};

use crate::laws::a_new_driver_stands;
use crate::{Driver, Turn};
use cs_base::{BeaconConfig, Mac, NoMemory, PortKind, Time};
use device_api::{Beacon, Device};
use port_queue::{RxPort, TxPort};
use slot_queue::{Consumer, Producer, RxEnd, SlotQueue, TxEnd};
use std::alloc::Global;
use std::test::Fail;
use sync_rule::{PortPlan, RunBad, Runner};

const LINK: PortPlan = PortPlan {
    kind: PortKind::Eth,
    latency: Time(500),
    interval: Time(500),
};

/// A beacon of so many frames, one each nanosecond.
fn beacon(alloc: Global, count: u32) -> Result<Beacon, NoMemory>
    requires { count ≤ 10 ^ 9 }
    ensures { IfOk result (λ beacon. IsSettledBeacon beacon 0) }
{
    let config = BeaconConfig {
        first: Time(1000),
        period: Time(1000),
        count,
        length: 60,
        to: Mac([0xff; 6]),
        from: Mac([2, 0, 0, 0, 0, 1]),
    };
    Beacon::start(alloc, &config)
}

/// A driver of a device with one port, until 2,600 picoseconds.
fn driver<V: Device, T: TxPort + Drop, R: RxPort + Drop>(
    alloc: Global,
    device: V,
    plan: PortPlan,
    tx: T,
    rx: R,
) -> Result<Driver<V, T, R>, NoMemory>
    requires at_start { V.settled device 0 }
    requires one_port { V.behaviour.ports device ≡ plan.kind ∷ [] }
    requires planned { IsPlanned plan }
    requires tx { (T.kind tx ≡ partner plan.kind) × T.stands tx [] }
    requires rx { (R.kind rx ≡ plan.kind) × R.stands rx [] }
    ensures { IfOk result (λ driver. IsFit V.behaviour V.settled T.kind T.stands R.kind R.stands
        driver.runner driver.txs.items driver.rxs.items) }
{
    a_new_driver_stands::<V, T, R>();
    let mut plans = Vec::new(alloc);
    plans.push(plan)?;
    let mut txs = Vec::new(alloc);
    txs.push(tx)?;
    let mut rxs = Vec::new(alloc);
    rxs.push(rx)?;
    let runner = Runner::new(alloc, device, plans, Time(2600))?;
    Ok(Driver::new(runner, txs, rxs))
}

/// Whether two drivers that take turns have both ended after 64 of them.
fn drive<V: Device, T: TxPort, R: RxPort>(
    alloc: Global,
    a: &mut Driver<V, T, R>,
    b: &mut Driver<V, T, R>,
) -> Result<bool, RunBad>
    requires a { IsFit V.behaviour V.settled T.kind T.stands R.kind R.stands
        a.old.runner a.old.txs.items a.old.rxs.items }
    requires b { IsFit V.behaviour V.settled T.kind T.stands R.kind R.stands
        b.old.runner b.old.txs.items b.old.rxs.items }
{
    for _round in 0..64 {
        let first = a.turn(alloc)?;
        let second = b.turn(alloc)?;
        if first == Turn::Ended && second == Turn::Ended {
            return Ok(true);
        }
    }
    Ok(false)
}

/// When two devices that are joined by a link log their lines, first those of one and then those of the other.
fn logged<V: Device, T: TxPort, R: RxPort>(
    alloc: Global,
    a: &mut Driver<V, T, R>,
    b: &mut Driver<V, T, R>,
) -> Result<Vec<u64>, Fail>
    requires a { IsFit V.behaviour V.settled T.kind T.stands R.kind R.stands
        a.old.runner a.old.txs.items a.old.rxs.items }
    requires b { IsFit V.behaviour V.settled T.kind T.stands R.kind R.stands
        b.old.runner b.old.txs.items b.old.rxs.items }
{
    let ended = drive(alloc, a, b)?;
    if !ended || a.turns() != b.turns() || a.still() == 0 {
        Err("turns without an end")?;
    }
    let mut times = Vec::new(alloc);
    for line in a.runner().log() {
        times.push(line.at.0)?;
    }
    for line in b.runner().log() {
        times.push(line.at.0)?;
    }
    Ok(times)
}

/// When two beacons log their lines that are joined by new queues.
fn joined(
    alloc: Global,
    there: &SlotQueue,
    back: &SlotQueue,
    sender: Producer,
    receiver: Consumer,
    replier: Producer,
    listener: Consumer,
) -> Result<Vec<u64>, Fail>
    requires sender { sender ≡ new_sender there.now.name Ethernet }
    requires receiver { receiver ≡ new_receiver there.now.name Ethernet }
    requires replier { replier ≡ new_sender back.now.name Ethernet }
    requires listener { listener ≡ new_receiver back.now.name Ethernet }
{
    let tx = TxEnd {
        queue: there,
        seat: sender,
    };
    let rx = RxEnd {
        queue: back,
        seat: listener,
    };
    let mut a = driver(alloc, beacon(alloc, 2)?, LINK, tx, rx)?;
    let tx = TxEnd {
        queue: back,
        seat: replier,
    };
    let rx = RxEnd {
        queue: there,
        seat: receiver,
    };
    let mut b = driver(alloc, beacon(alloc, 0)?, LINK, tx, rx)?;
    logged(alloc, &mut a, &mut b)
}

#[test]
fn two_beacons_are_driven_to_their_end(rt: HostRuntime) -> Result<(), Fail> {
    let alloc = rt.alloc();
    let (there, sender, receiver) = SlotQueue::new(alloc, 1, PortKind::Eth)?;
    let (back, replier, listener) = SlotQueue::new(alloc, 1, PortKind::Eth)?;
    let times = joined(alloc, &there, &back, sender, receiver, replier, listener)?;
    assert_eq!(rt; times.as_slice(), [1000, 2000, 1500, 2500].as_slice());
    Ok(())
}
