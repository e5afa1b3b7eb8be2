//! The parts of a mesh at its start.
ghost use Rattle.std.specs.Prelude.{◌≡◌, ◌≤◌, ◌<◌, ◌^◌, map, length, slice_get, Some, All, IfOk};
ghost use Rattle.cs_base.specs.Plan.{IsPlan, IsWithinLimits, kind_at};
ghost use Rattle.device_api.specs.Channels.{channels};
ghost use Rattle.sync_rule.specs.Ports.{IsPlanned};
ghost use Rattle.mesh_core.specs.State.{way_of};
ghost use Rattle.mesh_core.specs.Start.{plan_at, plans_of, first_runner, first_runners, kind_or, carriers_of, times_from};

use crate::way::{Seat, Way};
use cs_base::items::Items;
use cs_base::kind_at;
use cs_base::link::Link;
use cs_base::no_memory::NoMemory;
use cs_base::port_kind::PortKind;
use cs_base::time::Time;
use device_api::Device;
use mesh_channel::Carrier;
use std::alloc::Global;
use sync_rule::{PortPlan, Runner};

/// The times of a channel.
#[derive(Clone, Copy)]
pub struct Times {
    pub latency: Time,
    pub interval: Time,
}

/// The times of the channel that leads out of a port.
fn times_out_of(component: usize, port: usize, links: &[Link]) -> Option<Times>
    ensures { result ≡ times_from links.now (record { component = component; port = port }) }
{
    for link in links {
        if link.a as usize == component && link.a_port as usize == port {
            return Some(Times {
                latency: link.latency,
                interval: link.interval,
            });
        }
        if link.b as usize == component && link.b_port as usize == port {
            return Some(Times {
                latency: link.latency,
                interval: link.interval,
            });
        }
    }
    None
}

/// The plan of a port. In a wiring a channel leads out of each.
fn plan_of(component: usize, port: usize, kind: PortKind, links: &[Link]) -> PortPlan
    ensures { result ≡ plan_at links.now component port kind }
{
    match times_out_of(component, port, links) {
        Some(times) => PortPlan {
            kind,
            latency: times.latency,
            interval: times.interval,
        },
        None => PortPlan {
            kind,
            latency: Time(0),
            interval: Time(0),
        },
    }
}

fn plans_of(
    alloc: Global,
    component: usize,
    kinds: &[PortKind],
    links: &[Link],
) -> Result<Vec<PortPlan>, NoMemory>
    ensures { IfOk result (λ plans. plans.items ≡ plans_of links.now component kinds.now) }
{
    let mut plans = Vec::new(alloc);
    for (port, kind) in kinds.iter().enumerate() {
        plans.push(plan_of(component, port, *kind, links))?;
    }
    Ok(plans)
}

/// A component's runner at its start.
fn runner_of<V: Device>(
    alloc: Global,
    component: usize,
    device: V,
    kinds: &[Items<PortKind>],
    links: &[Link],
    end: Time,
) -> Result<Runner<V>, NoMemory>
    requires there { slice_get kinds.now component ≡ Some (V.behaviour.ports device) }
    requires within { component < length kinds.now }
    requires at_start { V.settled device 0 }
    requires planned { All IsPlanned (plans_of links.now component (V.behaviour.ports device)) }
    requires in_run { (1 ≤ end) × (end ≤ 10 ^ 15) }
    ensures { IfOk result (λ runner. runner ≡ first_runner V.behaviour links.now end component device) }
{
    let plans = plans_of(alloc, component, kinds[component].as_slice(), links)?;
    Runner::new(alloc, device, plans, end)
}

/// The runners of all components.
pub fn runners_of<V: Device>(
    alloc: Global,
    devices: Vec<V>,
    kinds: &[Items<PortKind>],
    links: &[Link],
    end: Time,
) -> Result<Vec<Runner<V>>, NoMemory>
    requires matches { map V.behaviour.ports devices.items ≡ kinds.now }
    requires at_start { All (λ device. V.settled device 0) devices.items }
    requires joined { IsPlan end kinds.now links.now }
    ensures { IfOk result (λ runners. runners.items ≡ first_runners V.behaviour links.now end devices.items) }
{
    let mut runners = Vec::new(alloc);
    let mut left = Items::from_vec(devices);
    left.reverse();
    'devices: while let Some(device) = left.pop() {
        let component = runners.len();
        runners.push(runner_of(alloc, component, device, kinds, links, end)?)?;
    }
    Ok(runners)
}

fn way(from: Seat, to: Seat) -> Way
    ensures { result ≡ record { from = from; to = to } }
{
    Way { from, to }
}

/// Where the channels lead.
pub fn ways_of(alloc: Global, links: &[Link]) -> Result<Vec<Way>, NoMemory>
    ensures { IfOk result (λ ways. ways.items ≡ map way_of (channels links.now)) }
{
    let mut ways = Vec::new(alloc);
    for link in links {
        let a = Seat {
            component: link.a,
            port: link.a_port,
        };
        let b = Seat {
            component: link.b,
            port: link.b_port,
        };
        ways.push(way(a, b))?;
        ways.push(way(b, a))?;
    }
    Ok(ways)
}

/// The kind of a port that is there.
pub fn kind_of(kinds: &[Items<PortKind>], component: u32, port: u32) -> PortKind
    ensures { result ≡ kind_or (kind_at kinds.now (record { component = component; port = port })) }
{
    match kind_at(kinds, component, port) {
        Some(kind) => kind,
        None => PortKind::Eth,
    }
}

/// What carries the channels.
pub fn carriers_of(
    alloc: Global,
    kinds: &[Items<PortKind>],
    links: &[Link],
) -> Result<Vec<Carrier>, NoMemory>
    requires { All IsWithinLimits links.now }
    ensures { IfOk result (λ carriers. carriers.items ≡ carriers_of kinds.now links.now) }
{
    let mut carriers = Vec::new(alloc);
    for link in links {
        let there = kind_of(kinds, link.b, link.b_port);
        carriers.push(Carrier::new(alloc, link.via, there, link.slots)?)?;
        let back = kind_of(kinds, link.a, link.a_port);
        carriers.push(Carrier::new(alloc, link.via, back, link.slots)?)?;
    }
    Ok(carriers)
}
