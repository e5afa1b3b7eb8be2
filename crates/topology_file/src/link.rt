//! Links between the ports of components.
ghost use Rattle.std.specs.Prelude.{◌≡◌, ◌≤◌, ◌<◌, length, position, None, Some, MatchResult, IfOk, IfSome};
ghost use Rattle.std.specs.Str.{bytes_eq};
ghost use Rattle.toml.specs.View.{view};
ghost use Rattle.topology_file.specs.Ports.{names_of};
ghost use Rattle.topology_file.specs.Seats.{HasSeats};
ghost use Rattle.topology_file.specs.Links.{component_named, link_of, link_fault, join_fault, twice_fault, ports_join_fault, interval_fault};

use crate::build::link_between;
use crate::component::Component;
use crate::faults::{has_name, own_fault, unless};
use crate::fields::text_at;
use crate::joined::Joined;
use crate::key::Key;
use crate::reason::TopoReason;
use crate::table;
use cs_base::{Items, Link, PortKind, kind_at};
use toml::Value;

/// The place of the component of a name.
fn place_of(components: &[Component], name: &[u8]) -> Option<usize>
    ensures { result ≡ position (λ c. bytes_eq name.now c.name) components.now }
{
    components
        .iter()
        .position(|component| has_name(component, name))
}

/// The number of the component of a name.
fn component_named(components: &[Component], name: &str) -> Option<u32>
    requires { length components.now ≤ 64 }
    ensures named { result ≡ component_named (names_of components.now) name.now }
    ensures within { IfSome result (λ number. number < 64) }
{
    match place_of(components, name.as_bytes()) {
        Some(place) => Some(place as u32),
        None => None,
    }
}

fn ports_join_fault(a: Option<PortKind>, b: Option<PortKind>) -> Option<TopoReason>
    ensures { result ≡ ports_join_fault a b }
{
    match (a, b) {
        (Some(a), Some(b)) => unless(a.joins(b), TopoReason::KindsDoNotJoin),
        _ => Some(TopoReason::PortMissing),
    }
}

fn interval_fault(link: &Link) -> Option<TopoReason>
    ensures { result ≡ interval_fault link.now }
{
    let fits = link.interval.picoseconds() <= link.latency.picoseconds();
    unless(fits, TopoReason::IntervalPastLatency)
}

fn twice_fault(joined: &Joined, link: &Link) -> Option<TopoReason>
    requires { HasSeats link.now }
    ensures { result ≡ twice_fault joined.now.links link.now }
{
    let once = joined.is_free(link.a, link.a_port)
        && joined.is_free(link.b, link.b_port)
        && !(link.a == link.b && link.a_port == link.b_port);
    unless(once, TopoReason::PortTwice)
}

fn join_fault(kinds: &[Items<PortKind>], joined: &Joined, link: &Link) -> Option<TopoReason>
    requires { HasSeats link.now }
    ensures { result ≡ join_fault kinds.now joined.now.links link.now }
{
    if let Some(reason) = twice_fault(joined, link) {
        return Some(reason);
    }
    let a = kind_at(kinds, link.a, link.a_port);
    let b = kind_at(kinds, link.b, link.b_port);
    if let Some(reason) = ports_join_fault(a, b) {
        return Some(reason);
    }
    interval_fault(link)
}

fn joined_between(
    kinds: &[Items<PortKind>],
    joined: &Joined,
    link: Link,
) -> Result<Link, TopoReason>
    requires { HasSeats link }
    ensures link { IfOk result (λ found. found ≡ link) }
    ensures seats { IfOk result HasSeats }
    ensures fault { MatchResult result (λ _. join_fault kinds.now joined.now.links link ≡ None)
        (λ reason. join_fault kinds.now joined.now.links link ≡ Some reason) }
{
    match join_fault(kinds, joined, &link) {
        Some(reason) => Err(reason),
        None => Ok(link),
    }
}

/// The link that an entry spells after other links, or what is wrong with it.
pub(crate) fn link(
    components: &[Component],
    kinds: &[Items<PortKind>],
    joined: &Joined,
    entry: &Value,
) -> Result<Link, TopoReason>
    requires { length components.now ≤ 64 }
    ensures link { IfOk result (λ link. link ≡ link_of (names_of components.now) (view entry.now)) }
    ensures seats { IfOk result HasSeats }
    ensures fault { MatchResult result
        (λ _. link_fault (names_of components.now) kinds.now joined.now.links (view entry.now)
        ≡ None)
        (λ reason. link_fault (names_of components.now) kinds.now joined.now.links (view entry.now)
        ≡ Some reason) }
{
    if !entry.is_table() {
        return Err(TopoReason::WrongType);
    }
    if let Some(reason) = own_fault(entry, table::link_keys()) {
        return Err(reason);
    }
    let Some(a) = component_named(components, text_at(entry, Key::A)) else {
        return Err(TopoReason::NoSuchComponent);
    };
    let Some(b) = component_named(components, text_at(entry, Key::B)) else {
        return Err(TopoReason::NoSuchComponent);
    };
    joined_between(kinds, joined, link_between(a, b, entry))
}
