ghost use Rattle.std.specs.Prelude.{◌≤◌, IfOk};
ghost use Rattle.load_gen.specs.Load.{IsLoad};

use crate::components::components;
use crate::links::links;
use cs_base::{NoMemory, Time, Wiring};
use std::alloc::Global;
use topology_file::{Topology, kinds_of};

/// When the run ends: after 100 us.
const END: Time = Time(100_000_000);

/// The system of n stations, 1 to 30: hosts `h0` to `h(n-1)`, each with an adapter `n0` to `n(n-1)`, which are joined in
/// turn to the switches `s0` and `s1`, and these to each other.
pub fn load_topology(alloc: Global, n: u32) -> Result<Topology, NoMemory>
    requires least { 1 ≤ n }
    requires most { n ≤ 30 }
    ensures { IfOk result (IsLoad n) }
{
    let components = components(alloc, n)?;
    let kinds = kinds_of(alloc, components.as_slice())?;
    let links = links(alloc, n)?;
    let wiring = Wiring {
        end: END,
        kinds,
        links,
    };
    Ok(Topology { components, wiring })
}
