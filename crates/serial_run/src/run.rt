ghost use Rattle.std.specs.Prelude.{◌≡◌, map, All, IfOk};
ghost use Rattle.global_model.specs.Runs.{HasLogsOf, HasCountsOf};
ghost use Rattle.mesh_core.specs.MeshOf.{IsMeshOf};
ghost use Rattle.sync_laws.specs.Whole.{HaveEnded};

use cs_base::no_memory::NoMemory;
use cs_base::wiring::Wiring;
use device_api::{Device, Outcome};
use mesh_core::Mesh;
use mesh_core::laws::{
    a_new_mesh_stands, a_walk_keeps_a_mesh_standing, an_ended_mesh_is_the_global_run,
};
use std::alloc::Global;

/// A mesh of devices that were at their start, joined by a wiring, after as many steps as
/// it can make.
fn ended_mesh<V: Device>(
    alloc: Global,
    devices: Vec<V>,
    wiring: &Wiring,
) -> Result<Mesh<V>, NoMemory>
    requires matches { map V.behaviour.ports devices.items ≡ wiring.now.kinds }
    requires at_start { All (λ device. V.settled device 0) devices.items }
    ensures of_its_system { IfOk result
        (IsMeshOf V.behaviour V.settled devices.items wiring.now.links wiring.now.end) }
    ensures ended { IfOk result (λ mesh. HaveEnded V.behaviour mesh.runners) }
{
    a_new_mesh_stands::<V>();
    a_walk_keeps_a_mesh_standing::<V>();
    let mut mesh = Mesh::new(alloc, devices, wiring)?;
    mesh.serial(alloc)?;
    Ok(mesh)
}

/// Runs devices from their start, each on a clock of its own, joined by a wiring, until
/// all have ended. It returns whatever the system, and what it leaves is what the global run leaves: what each component
/// logged, and how many messages went on each channel.
pub fn serial<V: Device>(
    alloc: Global,
    devices: Vec<V>,
    wiring: &Wiring,
) -> Result<Outcome, NoMemory>
    requires matches { map V.behaviour.ports devices.items ≡ wiring.now.kinds }
    requires at_start { All (λ device. V.settled device 0) devices.items }
    ensures logs { IfOk result (HasLogsOf V.behaviour devices.items wiring.now) }
    ensures counts { IfOk result (HasCountsOf V.behaviour devices.items wiring.now) }
{
    an_ended_mesh_is_the_global_run::<V>();
    let mesh = ended_mesh(alloc, devices, wiring)?;
    Ok(mesh.outcome())
}
