//! Which ports are joined.
ghost use Rattle.std.specs.Prelude.{◌≡◌, ◌≤◌, ◌<◌, IfOk};
ghost use Rattle.load_gen.specs.Load.{link_between, bus, cable, trunk, links};

use cs_base::{Items, Link, NoMemory, Time, Via};
use std::alloc::Global;

/// One end of a link: a port of a component.
#[derive(Clone, Copy)]
struct End {
    component: u32,
    port: u32,
}

fn link_between(a: End, b: End, latency: u64) -> Link
    ensures { result ≡ link_between a.component a.port b.component b.port latency }
{
    Link {
        a: a.component,
        a_port: a.port,
        b: b.component,
        b_port: b.port,
        latency: Time(latency),
        interval: Time(latency),
        slots: 64,
        via: Via::Queue,
    }
}

/// From a host to its adapter.
fn bus(n: u32, number: u32) -> Link
    requires most { n ≤ 30 }
    requires within { number < n }
    ensures { result ≡ bus n number }
{
    let host = End {
        component: number,
        port: 0,
    };
    let adapter = End {
        component: n + number,
        port: 0,
    };
    link_between(host, adapter, 500_000)
}

/// From an adapter to its switch.
fn cable(n: u32, number: u32) -> Link
    requires most { n ≤ 30 }
    requires within { number < n }
    ensures { result ≡ cable n number }
{
    let adapter = End {
        component: n + number,
        port: 1,
    };
    let switch = End {
        component: 2 * n + number % 2,
        port: number / 2,
    };
    link_between(adapter, switch, 1_000_000)
}

/// From switch to switch.
fn trunk(n: u32) -> Link
    requires { n ≤ 30 }
    ensures { result ≡ trunk n }
{
    let first = End {
        component: 2 * n,
        port: n.div_ceil(2),
    };
    let second = End {
        component: 2 * n + 1,
        port: n / 2,
    };
    link_between(first, second, 1_000_000)
}

/// The links of the system of n stations.
pub fn links(alloc: Global, n: u32) -> Result<Items<Link>, NoMemory>
    requires { n ≤ 30 }
    ensures { IfOk result (λ made. made ≡ links n) }
{
    let mut links = Items::new(alloc);
    'buses: for number in 0..n {
        links.push(bus(n, number))?;
    }
    'cables: for number in 0..n {
        links.push(cable(n, number))?;
    }
    links.push(trunk(n))?;
    Ok(links)
}
