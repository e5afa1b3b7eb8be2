//! Beacons, and the wiring of two that are joined.
ghost use Rattle.std.specs.Prelude.{◌≡◌, ◌≤◌, ◌^◌, ◌∷◌, [], IfOk};
ghost use Rattle.cs_base.specs.declared.port_kind.PortKind.TheVariants.{Eth as Ethernet};
ghost use Rattle.device_api.specs.Beacon.{IsSettledBeacon};

use cs_base::{BeaconConfig, Items, Link, Mac, PortKind, Time, Via, Wiring};
use device_api::Beacon;
use std::alloc::Global;
use std::test::Fail;

fn one_port(alloc: Global) -> Result<Items<PortKind>, Fail>
    ensures { IfOk result (λ kinds. kinds ≡ Ethernet ∷ []) }
{
    let mut kinds = Items::new(alloc);
    kinds.push(PortKind::Eth)?;
    Ok(kinds)
}

/// A link by queues of 64 slots, with this latency and interval.
pub fn link_of(latency: u64, interval: u64) -> Link {
    Link {
        a: 0,
        a_port: 0,
        b: 1,
        b_port: 0,
        latency: Time(latency),
        interval: Time(interval),
        slots: 64,
        via: Via::Queue,
    }
}

/// Two ports that are joined by a link, until this end.
pub fn pair(alloc: Global, end: u64, link: Link) -> Result<Wiring, Fail>
    ensures { IfOk result (λ wiring. wiring.kinds ≡ (Ethernet ∷ []) ∷ ((Ethernet ∷ []) ∷ [])) }
{
    let mut kinds = Items::new(alloc);
    kinds.push(one_port(alloc)?)?;
    kinds.push(one_port(alloc)?)?;
    let mut links = Items::new(alloc);
    links.push(link)?;
    Ok(Wiring::new(Time(end), kinds, links).ok_or("no wiring")?)
}

/// A beacon of so many frames, one each nanosecond.
pub fn beacon(alloc: Global, count: u32) -> Result<Beacon, Fail>
    requires { count ≤ 10 ^ 9 }
    ensures { IfOk result (λ beacon. IsSettledBeacon beacon 0) }
{
    let config = BeaconConfig {
        first: Time(1000),
        period: Time(1000),
        count,
        length: 60,
        to: Mac([0xff; 6]),
        from: Mac([2, 0, 0, 0, 0, 1]),
    };
    Ok(Beacon::start(alloc, &config)?)
}

/// That threads may be handed a value of this type.
pub fn is_sent<T: Send>() {}
