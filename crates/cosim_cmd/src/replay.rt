//! The command `replay`: how far a topology's devices come by the steps of a schedule.
ghost use Rattle.std.specs.Prelude.{◌≡◌, All, map, length, IfOk, IfErr};
ghost use Rattle.device_set.specs.AnyKind.{any_device, IsSettledDevice};
ghost use Rattle.log_join.specs.Before.{AreBefore};
ghost use Rattle.mesh_core.specs.Left.{logs_left};
ghost use Rattle.cosim_cmd.specs.Inputs.{AreImagesAnd, OfOneRead, OfRead, AsksAtMost, AsksIfAny};
ghost use Rattle.cosim_cmd.specs.Refusals.{IsFault};
ghost use Rattle.cosim_cmd.specs.Replay.{IsStateText, IsStepped, IsUnplayed, AreForReplay, WithSchedule, Replays, IsReplay, IsScheduleBad, IsSystemBad, IsReplayBad};

use crate::input::{content, contents};
use crate::line::schedule_line;
use crate::model::started;
use crate::names::names_of;
use crate::refusal::{Fault, OutputBad, too_long, unplayed, unread};
use crate::topology_text::topology;
use cs_base::{Files, NoMemory, Octets};
use device_set::{AnyDevice, image_names};
use mesh_core::Mesh;
use mesh_core::laws::a_mesh_begins_the_global_run;
use replay_run::{ReplayBad, replay_from_start, report};
use std::alloc::Global;
use topology_file::Topology;

/// What is written of a mesh of a topology's devices.
fn state_text(alloc: Global, topology: &Topology, mesh: Mesh<AnyDevice>) -> Result<Octets, NoMemory>
    requires as_many { length mesh.runners ≡ length topology.now.components }
    requires before { AreBefore topology.now.wiring.end (logs_left mesh) }
    ensures { IfOk result (IsStateText topology.now mesh) }
{
    let names = names_of(alloc, topology.components.as_slice())?;
    let ended = mesh.ended();
    let outcome = mesh.outcome();
    report(alloc, &outcome.logs, names.as_slice(), ended)
}

/// What is written after the steps of a schedule.
fn stepped(
    alloc: Global,
    topology: &Topology,
    devices: Vec<AnyDevice>,
    schedule: &[u8],
) -> Result<Octets, Fault>
    requires matches { map any_device.ports devices.items ≡ topology.now.wiring.kinds }
    requires at_start { All (λ device. IsSettledDevice device 0) devices.items }
    ensures written { IfOk result (IsStepped topology.now devices.items schedule.now) }
    ensures refused { IfErr result (IsFault (IsUnplayed topology.now devices.items schedule.now)) }
{
    a_mesh_begins_the_global_run::<AnyDevice>();
    match replay_from_start(alloc, devices, &topology.wiring, schedule) {
        Ok(mesh) => Ok(state_text(alloc, topology, mesh)?),
        Err(ReplayBad::Line(number)) => Err(Fault::Line(schedule_line(alloc, number)?)),
        Err(ReplayBad::NoMemory) => Err(Fault::NoMemory),
    }
}

/// What is written of devices at their start after the schedule of this name.
fn scheduled<F: Files>(
    alloc: Global,
    topology: &Topology,
    devices: Vec<AnyDevice>,
    name: &str,
    files: &mut F,
) -> Result<Octets, OutputBad>
    requires matches { map any_device.ports devices.items ≡ topology.now.wiring.kinds }
    requires at_start { All (λ device. IsSettledDevice device 0) devices.items }
    ensures written { IfOk result (λ text. OfOneRead name.now (F.seen files.old) (F.seen files.new)
        (λ schedule. IsStepped topology.now devices.items schedule text)) }
    ensures refused { IfErr result
        (IsScheduleBad topology.now devices.items name.now (F.seen files.old) (F.seen files.new)) }
    ensures asked { AsksAtMost name.now (F.seen files.old) (F.seen files.new) }
    ensures files_kept { (F.seen files.new).held ≡ (F.seen files.old).held }
{
    match content(alloc, name, files) {
        Ok(schedule) => match stepped(alloc, topology, devices, schedule.as_slice()) {
            Ok(text) => Ok(text),
            Err(fault) => Err(unplayed(fault)),
        },
        Err(fault) => Err(unread(fault)),
    }
}

/// What is written of a topology after the schedule of this name. The programs of hosts are read first.
fn on_topology<F: Files>(
    alloc: Global,
    topology: &Topology,
    name: &str,
    files: &mut F,
) -> Result<Octets, OutputBad>
    ensures written { IfOk result (λ text.
        OfRead (AreForReplay topology.now name.now) (F.seen files.old) (F.seen files.new)
        (λ contents. WithSchedule contents (λ images schedule.
        Replays topology.now images schedule text))) }
    ensures refused { IfErr result
        (IsSystemBad topology.now name.now (F.seen files.old) (F.seen files.new)) }
    ensures asked { AsksIfAny (AreForReplay topology.now name.now)
        (F.seen files.old) (F.seen files.new) }
    ensures files_kept { (F.seen files.new).held ≡ (F.seen files.old).held }
{
    let names = image_names(alloc, topology)?;
    let images = match contents(alloc, names.as_slice(), files) {
        Ok(images) => images,
        Err(fault) => return Err(unread(fault)),
    };
    match started(alloc, topology, images) {
        Ok(devices) => scheduled(alloc, topology, devices, name, files),
        Err(fault) => Err(too_long(fault)),
    }
}

/// The output of `replay` on a topology text and the schedule of this name, which is read last.
pub fn replayed<F: Files>(
    alloc: Global,
    bytes: &[u8],
    schedule: &str,
    files: &mut F,
) -> Result<Octets, OutputBad>
    ensures replayed { IfOk result (λ text.
        OfRead (AreImagesAnd bytes.now schedule.now) (F.seen files.old) (F.seen files.new)
        (λ contents. IsReplay bytes.now contents text)) }
    ensures refused { IfErr result
        (IsReplayBad bytes.now schedule.now (F.seen files.old) (F.seen files.new)) }
    ensures asked { AsksIfAny (AreImagesAnd bytes.now schedule.now)
        (F.seen files.old) (F.seen files.new) }
    ensures files_kept { (F.seen files.new).held ≡ (F.seen files.old).held }
{
    let topology = match topology(alloc, bytes) {
        Ok(topology) => topology,
        Err(Fault::Line(line)) => return Err(OutputBad::Topology(line)),
        Err(Fault::NoMemory) => return Err(OutputBad::NoMemory),
    };
    on_topology(alloc, &topology, schedule, files)
}
