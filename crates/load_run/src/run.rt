//! The system of a number of stations, run and written.
ghost use Rattle.std.specs.Prelude.{◌≡◌, ◌≤◌, IfOk, None};
ghost use Rattle.device_set.specs.Starts.{too_long, AreStarted};
ghost use Rattle.load_run.specs.Load.{IsSummary, IsLoadText};

use crate::programs::programs;
use crate::summary::summary;
use cs_base::{NoMemory, Octets};
use device_set::{AnyDevice, StartBad, start};
use global_model::simulate;
use load_gen::{load_image, load_topology};
use std::alloc::Global;
use topology_file::{Topology, print};

/// The devices of a topology whose programs fit their hosts.
fn started(
    alloc: Global,
    topology: &Topology,
    images: Vec<Octets>,
) -> Result<Vec<AnyDevice>, NoMemory>
    requires { too_long topology.now images.items ≡ None }
    ensures { IfOk result (λ devices. AreStarted topology.now images.items devices.items) }
{
    match start(alloc, topology, images) {
        Ok(devices) => Ok(devices),
        Err(StartBad::NoMemory) => Err(NoMemory),
        Err(StartBad::ImageTooLong { .. }) => unreachable!(),
    }
}

/// Runs the system of so many stations, 1 to 30, by the global simulator, and writes six lines, each a word and a
/// number: `load` and how many stations, `components`, `links`, `lines` of all logs, and `syncs` and `sends`, the null
/// messages and the events of all channels. `NoMemory` comes only where memory is wanting.
pub fn load_summary(alloc: Global, stations: u32) -> Result<Octets, NoMemory>
    requires least { 1 ≤ stations }
    requires most { stations ≤ 30 }
    ensures { IfOk result (IsSummary stations) }
{
    let topology = load_topology(alloc, stations)?;
    let program = load_image(alloc)?;
    let images = programs(alloc, stations, &program)?;
    let devices = started(alloc, &topology, images)?;
    let outcome = simulate(alloc, devices, &topology.wiring)?;
    summary(alloc, stations, &topology, &outcome)
}

/// Writes the system of so many stations, 1 to 30, as a topology file with every key of every entry. `NoMemory` comes
/// only where memory is wanting.
pub fn load_text(alloc: Global, stations: u32) -> Result<Octets, NoMemory>
    requires least { 1 ≤ stations }
    requires most { stations ≤ 30 }
    ensures { IfOk result (IsLoadText stations) }
{
    let topology = load_topology(alloc, stations)?;
    print(alloc, &topology)
}
