ghost use Rattle.std.specs.Prelude.{IfOk, IfErr};
ghost use Rattle.mesh_core.specs.MeshOf.{IsMesh};
ghost use Rattle.replay_run.specs.Replayed.{IsReplayed, IsReplayBad, Makes};

use cs_base::first_line;
use cs_base::no_memory::NoMemory;
use device_api::Device;
use mesh_core::Mesh;
use mesh_core::laws::each_step_keeps_a_mesh_standing;
use run_steps::read_step;
use std::alloc::Global;
use thiserror::Error;

/// Why a schedule was not replayed to its end.
#[derive(Clone, Copy, Debug, PartialEq, Eq, Error)]
pub enum ReplayBad {
    /// This line, counted from 1, is the first that spells no step or whose step isn't enabled in its turn.
    #[error("line {0}")]
    Line(u64),
    /// Memory is wanting.
    #[error("no memory")]
    NoMemory,
}

impl From<NoMemory> for ReplayBad {
    ghost use Rattle.replay_run.specs.declared.schedule.ReplayBad.TheVariants.{NoMemory as Wanting};
    ghost use Rattle.std.specs.Prelude.{◌≡◌};

    ghost from_gives = { λ _ bad. bad ≡ Wanting };

    fn from(_error: NoMemory) -> ReplayBad {
        ReplayBad::NoMemory
    }
}

/// Makes the step that a line spells. False exactly where the line spells no step or its step isn't enabled, and then
/// nothing changed.
fn make<V: Device>(alloc: Global, mesh: &mut Mesh<V>, line: &[u8]) -> Result<bool, NoMemory>
    requires { IsMesh V.behaviour V.settled mesh.old }
    ensures { IfOk result (Makes V.behaviour line.now mesh.old mesh.new) }
{
    match read_step(line) {
        Some(step) => mesh.step(alloc, step),
        None => Ok(false),
    }
}

/// Takes the steps that the lines of a schedule spell, one after another.
///
/// # Errors
///
/// [`ReplayBad::Line`] exactly where that line is the first that spells no step or whose step isn't enabled after the
/// lines before it, and [`ReplayBad::NoMemory`] where memory is wanting.
pub fn replay<V: Device>(
    alloc: Global,
    mesh: Mesh<V>,
    schedule: &[u8],
) -> Result<Mesh<V>, ReplayBad>
    requires { IsMesh V.behaviour V.settled mesh }
    ensures replayed { IfOk result (IsReplayed V.behaviour schedule.now mesh) }
    ensures stands { IfOk result (IsMesh V.behaviour V.settled) }
    ensures refused { IfErr result (IsReplayBad V.behaviour schedule.now mesh) }
{
    each_step_keeps_a_mesh_standing::<V>();
    let mut now = mesh;
    let mut rest = schedule;
    let mut number = 0u64;
    'lines: while !rest.is_empty() {
        let (line, behind) = first_line(rest);
        number += 1;
        if !make(alloc, &mut now, line)? {
            return Err(ReplayBad::Line(number));
        }
        rest = behind;
    }
    Ok(now)
}
