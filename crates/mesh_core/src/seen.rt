ghost use Rattle.std.specs.Prelude.{◌≡◌};
ghost use Rattle.mesh_core.specs.MeshOf.{IsMesh};

use crate::mesh::Mesh;
use device_api::Device;
use std::snapshot::Snapshot;

/// That a mesh, as it once was, is one of some system: so the number of steps that were to come then is known. It takes no
/// memory.
#[derive(Drop)]
pub struct Seen<V: Device> {
    pub mesh: Snapshot<Mesh<V>>,
    pub ghost known: { ∥ IsMesh V.behaviour V.settled mesh.value ∥₁ },
}

impl<V: Device> Seen<V> {
    pub fn of(mesh: &Mesh<V>) -> Seen<V>
        requires { IsMesh V.behaviour V.settled mesh.now }
        ensures { result.mesh.value ≡ mesh.now }
    {
        Seen {
            mesh: Snapshot::of(mesh),
        }
    }
}
