//! Two beacons that are joined by a link, and schedules for their mesh.
ghost use Rattle.std.specs.Prelude.{◌≡◌, ◌≤◌, ◌^◌, ◌∷◌, [], IfOk};
ghost use Rattle.cs_base.specs.declared.port_kind.PortKind.TheVariants.{Eth as Ethernet};
ghost use Rattle.device_api.specs.Beacon.{IsSettledBeacon};

use crate::{ReplayBad, replay_from_start, report};
use cs_base::{BeaconConfig, Items, Link, Mac, Name, PortKind, Time, Via, Wiring};
use device_api::{Beacon, Logs};
use std::alloc::Global;
use std::test::Fail;

fn one_port(alloc: Global) -> Result<Items<PortKind>, Fail>
    ensures { IfOk result (λ kinds. kinds ≡ Ethernet ∷ []) }
{
    let mut kinds = Items::new(alloc);
    kinds.push(PortKind::Eth)?;
    Ok(kinds)
}

fn pair(alloc: Global) -> Result<Wiring, Fail>
    ensures kinds { IfOk result
        (λ wiring. wiring.kinds ≡ (Ethernet ∷ []) ∷ ((Ethernet ∷ []) ∷ [])) }
{
    let mut kinds = Items::new(alloc);
    kinds.push(one_port(alloc)?)?;
    kinds.push(one_port(alloc)?)?;
    let mut links = Items::new(alloc);
    links.push(Link {
        a: 0,
        a_port: 0,
        b: 1,
        b_port: 0,
        latency: Time(500),
        interval: Time(500),
        slots: 64,
        via: Via::Queue,
    })?;
    Ok(Wiring::new(Time(2600), kinds, links).ok_or("no wiring")?)
}

fn beacon(alloc: Global, count: u32) -> Result<Beacon, Fail>
    requires { count ≤ 10 ^ 9 }
    ensures { IfOk result (λ beacon. IsSettledBeacon beacon 0) }
{
    let config = BeaconConfig {
        first: Time(1000),
        period: Time(1000),
        count,
        length: 60,
        to: Mac([0xff; 6]),
        from: Mac([2, 0, 0, 0, 0, 1]),
    };
    Ok(Beacon::start(alloc, &config)?)
}

/// Whether the mesh has ended after a schedule.
fn ended_after(alloc: Global, schedule: &str) -> Result<Result<bool, ReplayBad>, Fail> {
    let wiring = pair(alloc)?;
    let a = beacon(alloc, 2)?;
    let b = beacon(alloc, 0)?;
    let mut devices = Vec::new(alloc);
    devices.push(a)?;
    devices.push(b)?;
    match replay_from_start(alloc, devices, &wiring, schedule.as_bytes()) {
        Ok(mesh) => Ok(Ok(mesh.ended())),
        Err(bad) => Ok(Err(bad)),
    }
}

const CASES: [(&str, Result<bool, ReplayBad>); 4] = [
    ("send 0\npoll 0\nevent 0\npoll 1\n", Err(ReplayBad::Line(4))),
    ("send 0\npoll 0\nevent 0\n", Ok(false)),
    ("", Ok(false)),
    ("step 0\n", Err(ReplayBad::Line(1))),
];

#[test]
fn schedules_are_replayed(rt: HostRuntime) -> Result<(), Fail> {
    for (schedule, wanted) in CASES {
        assert_eq!(rt; ended_after(rt.alloc(), schedule)?, wanted);
    }
    Ok(())
}

#[test]
fn nothing_logged_leaves_the_state(rt: HostRuntime) -> Result<(), Fail> {
    let names = [Name::new(b"a").ok_or("no name")?];
    let mut lists = Items::new(rt.alloc());
    lists.push(Items::new(rt.alloc()))?;
    let text = report(rt.alloc(), &Logs { lists }, &names, false)?;
    assert_eq!(rt; text.as_slice(), b"state running\n".as_slice());
    Ok(())
}
