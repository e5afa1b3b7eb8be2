//! What holds of replays.
ghost use Rattle.replay_run.specs.Laws.{ReplaysAgree, ReplaysKeepIt};

use device_api::Device;
use mesh_core::laws::each_step_keeps_a_mesh_standing;

/// A mesh and a schedule have one outcome: one mesh after all steps, or one line that is the first at fault, and not both.
pub fn a_replay_has_one_outcome<V: Device>()
    ensures { ReplaysAgree V.behaviour }
{}

/// A replay leaves a mesh of the system whose mesh it began with.
pub fn a_replay_keeps_a_mesh_standing<V: Device>()
    ensures { ReplaysKeepIt V.behaviour V.settled }
{
    each_step_keeps_a_mesh_standing::<V>();
}
