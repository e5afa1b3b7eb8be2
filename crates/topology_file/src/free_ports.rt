//! Ports that are in no link.
ghost use Rattle.std.specs.Prelude.{◌≡◌, ◌≤◌, ◌<◌, List, All, length, None, Some, MatchOption};
ghost use Rattle.cs_base.specs.declared.port_kind.PortKind.{PortKind};
ghost use Rattle.topology_file.specs.Refusals.{are_joined, ports_refusal};

use crate::joined::Joined;
use crate::reason::{Entry, TopoReason};
use cs_base::{Items, PortKind};

/// Whether each of the first so many ports of a component is in a link.
fn are_joined(joined: &Joined, component: u32, count: u32) -> bool
    requires component { component < 64 }
    requires count { count ≤ 32 }
    ensures { result ≡ are_joined joined.now.links component count }
{
    for port in 0..count {
        if joined.is_free(component, port) {
            return false;
        }
    }
    true
}

/// The first component with a port that is in no link.
pub(crate) fn free_port(joined: &Joined, kinds: &[Items<PortKind>]) -> Option<u32>
    requires few_components { length kinds.now ≤ 64 }
    requires few_ports { All (λ (ports : List PortKind). length ports ≤ 32) kinds.now }
    ensures { MatchOption result (ports_refusal joined.now.links 0 kinds.now ≡ None)
        (λ number. ports_refusal joined.now.links 0 kinds.now
        ≡ Some (TopoReason.PortFree, Entry.Component number)) }
{
    for (component, ports) in kinds.iter().enumerate() {
        if !are_joined(joined, component as u32, ports.len() as u32) {
            return Some(component as u32);
        }
    }
    None
}
