ghost use Rattle.std.specs.Prelude.{◌≡◌, ◌≤◌, ◌<◌, ◌↔◌, IsTrue, IsSome, IfSome, All, List, length, is_some, true};
ghost use Rattle.cs_base.specs.Plan.{IsWithinLimits, JoinsKinds, Joins, IsSized, PortsInOneLink, InOneLink, IsPlan, kind_at, uses_in, uses_of, End};
ghost use Rattle.cs_base.specs.declared.port_kind.PortKind.{PortKind};

use crate::items::Items;
use crate::limits::{
    LATEST_END, LONGEST_LATENCY, MOST_COMPONENTS, MOST_LINKS, MOST_PORTS, MOST_SLOTS,
};
use crate::link::Link;
use crate::port_kind::PortKind;
use crate::time::Time;
use crate::wiring::Wiring;

/// The kind of a port, components and ports counted from 0; None where there is no such port.
pub fn kind_at(kinds: &[Items<PortKind>], component: u32, port: u32) -> Option<PortKind>
    ensures { result ≡ kind_at kinds.now (record { component = component; port = port }) }
{
    let ports = kinds.get(component as usize)?;
    ports.as_slice().get(port as usize).copied()
}

fn joins_kinds(kinds: &[Items<PortKind>], link: &Link) -> bool
    ensures { IsTrue result ↔ JoinsKinds kinds.now link.now }
{
    match (
        kind_at(kinds, link.a, link.a_port),
        kind_at(kinds, link.b, link.b_port),
    ) {
        (Some(a), Some(b)) => a.joins(b),
        _ => false,
    }
}

fn is_within_limits(link: &Link) -> bool
    ensures { IsTrue result ↔ IsWithinLimits link.now }
{
    let latency = link.latency.picoseconds();
    let interval = link.interval.picoseconds();
    1 <= interval
        && interval <= latency
        && latency <= LONGEST_LATENCY
        && 1 <= link.slots
        && link.slots <= MOST_SLOTS
}

fn joins(kinds: &[Items<PortKind>], link: &Link) -> bool
    ensures { IsTrue result ↔ Joins kinds.now link.now }
{
    is_within_limits(link) && joins_kinds(kinds, link)
}

fn all_join(kinds: &[Items<PortKind>], links: &[Link]) -> bool
    ensures { IsTrue result ↔ All (Joins kinds.now) links.now }
{
    links.iter().all(|link| joins(kinds, link))
}

/// How many ends of a link are at a port.
fn uses_in(link: &Link, component: u32, port: u32) -> usize
    ensures uses { result ≡ uses_in link.now (record { component = component; port = port }) }
    ensures few { result ≤ 2 }
{
    usize::from(link.a == component && link.a_port == port)
        + usize::from(link.b == component && link.b_port == port)
}

/// How many ends of the links are at a port.
fn uses_of(links: &[Link], component: u32, port: u32) -> usize
    requires { length links.now ≤ 1024 }
    ensures { result ≡ uses_of links.now (record { component = component; port = port }) }
{
    let mut uses = 0;
    for link in links {
        uses += uses_in(link, component, port);
    }
    uses
}

/// Whether each of a component's first `count` ports is in exactly one link.
fn ports_in_one_link(links: &[Link], component: u32, count: u32) -> bool
    requires { length links.now ≤ 1024 }
    ensures { IsTrue result ↔ PortsInOneLink links.now component count }
{
    for port in 0..count {
        if uses_of(links, component, port) != 1 {
            return false;
        }
    }
    true
}

/// Whether each port of each component is in exactly one link.
fn in_one_link(kinds: &[Items<PortKind>], links: &[Link]) -> bool
    requires few_links { length links.now ≤ 1024 }
    requires few_components { length kinds.now ≤ 64 }
    requires few_ports { All (λ (ports : List PortKind). length ports ≤ 32) kinds.now }
    ensures { IsTrue result ↔ InOneLink kinds.now links.now }
{
    for (component, ports) in kinds.iter().enumerate() {
        if !ports_in_one_link(links, component as u32, ports.len() as u32) {
            return false;
        }
    }
    true
}

fn is_sized(end: Time, kinds: &[Items<PortKind>], links: &[Link]) -> bool
    ensures { IsTrue result ↔ IsSized end kinds.now links.now }
{
    let end = end.picoseconds();
    1 <= end
        && end <= LATEST_END
        && 1 <= kinds.len()
        && kinds.len() <= MOST_COMPONENTS
        && links.len() <= MOST_LINKS
        && kinds.iter().all(|ports| ports.len() <= MOST_PORTS)
}

fn is_plan(end: Time, kinds: &[Items<PortKind>], links: &[Link]) -> bool
    ensures { IsTrue result ↔ IsPlan end kinds.now links.now }
{
    is_sized(end, kinds, links) && all_join(kinds, links) && in_one_link(kinds, links)
}

impl Wiring {
    /// The wiring of these parts; None exactly where the links don't join the ports as they must.
    pub fn new(end: Time, kinds: Items<Items<PortKind>>, links: Items<Link>) -> Option<Wiring>
        ensures valid { IsSome result ↔ IsPlan end kinds links }
        ensures end { IfSome result (λ wiring. wiring.end ≡ end) }
        ensures kinds { IfSome result (λ wiring. wiring.kinds ≡ kinds) }
        ensures links { IfSome result (λ wiring. wiring.links ≡ links) }
    {
        if is_plan(end, kinds.as_slice(), links.as_slice()) {
            Some(Wiring { end, kinds, links })
        } else {
            None
        }
    }
}
