ghost use Rattle.std.specs.Prelude.{◌≡◌, map, All, IfOk, IfErr};
ghost use Rattle.mesh_core.specs.MeshOf.{IsMeshOf};
ghost use Rattle.replay_run.specs.Replayed.{IsReplayedFrom, IsRefusedFrom};

use crate::laws::a_replay_keeps_a_mesh_standing;
use crate::schedule::{ReplayBad, replay};
use cs_base::wiring::Wiring;
use device_api::Device;
use mesh_core::Mesh;
use mesh_core::laws::a_new_mesh_stands;
use std::alloc::Global;

/// The mesh of devices at their start, joined by a wiring, after the steps of a schedule.
///
/// # Errors
///
/// Those of [`replay`].
pub fn replay_from_start<V: Device>(
    alloc: Global,
    devices: Vec<V>,
    wiring: &Wiring,
    schedule: &[u8],
) -> Result<Mesh<V>, ReplayBad>
    requires matches { map V.behaviour.ports devices.items ≡ wiring.now.kinds }
    requires at_start { All (λ device. V.settled device 0) devices.items }
    ensures replayed { IfOk result
        (IsReplayedFrom V.behaviour devices.items wiring.now schedule.now) }
    // So what holds of each mesh of its system, however it is stepped, holds of it.
    ensures of_its_system { IfOk result
        (IsMeshOf V.behaviour V.settled devices.items wiring.now.links wiring.now.end) }
    ensures refused { IfErr result
        (IsRefusedFrom V.behaviour devices.items wiring.now schedule.now) }
{
    a_new_mesh_stands::<V>();
    a_replay_keeps_a_mesh_standing::<V>();
    let mesh = Mesh::new(alloc, devices, wiring)?;
    replay(alloc, mesh, schedule)
}
