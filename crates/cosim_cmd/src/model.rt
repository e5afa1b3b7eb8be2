//! The commands `model` and `serial`: the joined log of the global simulator, and the statistics of its run. The run on
//! local clocks, one step at a time, has the same text.
ghost use Rattle.std.specs.Prelude.{◌≡◌, ◌<◌, All, map, length, IfOk, IfErr};
ghost use Rattle.global_model.specs.Runs.{HasLogsOf, HasCountsOf};
ghost use Rattle.device_set.specs.AnyKind.{any_device, IsSettledDevice};
ghost use Rattle.cosim_cmd.specs.Model.{run_text, AreReady, IsLogged, IsTooLong, IsHostLine, IsModelled, IsModelBad};
ghost use Rattle.cosim_cmd.specs.Inputs.{AreImages, OfRead, AsksIfAny};
ghost use Rattle.cosim_cmd.specs.Refusals.{IsFault};

use crate::input::contents;
use crate::line::image_line;
use crate::outcomes::outcome_text;
use crate::refusal::{Fault, OutputBad, too_long, unread};
use crate::topology_text::topology;
use cs_base::{Files, NoMemory, Octets};
use device_api::Outcome;
use device_set::{AnyDevice, StartBad, image_names, start};
use global_model::simulate;
use serial_run::serial;
use std::alloc::Global;
use topology_file::Topology;

/// Whose time a run goes by.
#[derive(Clone, Copy, Debug)]
pub enum Clocks {
    /// One for all components: all events by time, component and port.
    Global,
    /// One of each component's own, as far as its channels allow.
    Local,
}

/// The run of a topology's devices.
fn outcome(
    alloc: Global,
    clocks: Clocks,
    topology: &Topology,
    devices: Vec<AnyDevice>,
) -> Result<Outcome, NoMemory>
    requires matches { map any_device.ports devices.items ≡ topology.now.wiring.kinds }
    requires at_start { All (λ device. IsSettledDevice device 0) devices.items }
    ensures logs { IfOk result (HasLogsOf any_device devices.items topology.now.wiring) }
    ensures counts { IfOk result (HasCountsOf any_device devices.items topology.now.wiring) }
{
    match clocks {
        Clocks::Global => simulate(alloc, devices, &topology.wiring),
        Clocks::Local => serial(alloc, devices, &topology.wiring),
    }
}

/// The joined log of a topology's devices, and where they are asked for, the statistics after it.
fn run_text(
    alloc: Global,
    clocks: Clocks,
    stats: bool,
    topology: &Topology,
    devices: Vec<AnyDevice>,
) -> Result<Octets, NoMemory>
    requires matches { map any_device.ports devices.items ≡ topology.now.wiring.kinds }
    requires at_start { All (λ device. IsSettledDevice device 0) devices.items }
    ensures { IfOk result (λ text. text ≡ run_text stats topology.now devices.items) }
{
    let outcome = outcome(alloc, clocks, topology, devices)?;
    outcome_text(alloc, stats, topology, &outcome)
}

/// The line about a host whose program is too long.
fn host_line(alloc: Global, topology: &Topology, number: u32) -> Result<Octets, NoMemory>
    requires { number < length topology.now.components }
    ensures { IfOk result (IsHostLine topology.now number) }
{
    let host = &topology.components.as_slice()[number as usize];
    image_line(alloc, host.name.as_slice())
}

/// The devices of a topology with these programs, at their start.
pub fn started(
    alloc: Global,
    topology: &Topology,
    images: Vec<Octets>,
) -> Result<Vec<AnyDevice>, Fault>
    ensures started { IfOk result (λ devices. AreReady topology.now images.items devices.items) }
    ensures refused { IfErr result (IsFault (IsTooLong topology.now images.items)) }
{
    match start(alloc, topology, images) {
        Ok(devices) => Ok(devices),
        Err(StartBad::ImageTooLong { component }) => {
            Err(Fault::Line(host_line(alloc, topology, component)?))
        }
        Err(StartBad::NoMemory) => Err(Fault::NoMemory),
    }
}

/// The text of the run of a topology with these programs.
pub fn logged(
    alloc: Global,
    clocks: Clocks,
    stats: bool,
    topology: &Topology,
    images: Vec<Octets>,
) -> Result<Octets, Fault>
    ensures logged { IfOk result (IsLogged stats topology.now images.items) }
    ensures refused { IfErr result (IsFault (IsTooLong topology.now images.items)) }
{
    match started(alloc, topology, images) {
        Ok(devices) => Ok(run_text(alloc, clocks, stats, topology, devices)?),
        Err(fault) => Err(fault),
    }
}

/// The output of `model` on a topology text, and by local clocks that of `serial`. The programs of hosts are read after the topology.
pub fn modelled<F: Files>(
    alloc: Global,
    clocks: Clocks,
    stats: bool,
    bytes: &[u8],
    files: &mut F,
) -> Result<Octets, OutputBad>
    ensures modelled { IfOk result (λ text.
        OfRead (AreImages bytes.now) (F.seen files.old) (F.seen files.new)
        (λ images. IsModelled stats bytes.now images text)) }
    ensures refused { IfErr result (IsModelBad bytes.now (F.seen files.old) (F.seen files.new)) }
    ensures asked { AsksIfAny (AreImages bytes.now) (F.seen files.old) (F.seen files.new) }
    ensures files_kept { (F.seen files.new).held ≡ (F.seen files.old).held }
{
    let topology = match topology(alloc, bytes) {
        Ok(topology) => topology,
        Err(Fault::Line(line)) => return Err(OutputBad::Topology(line)),
        Err(Fault::NoMemory) => return Err(OutputBad::NoMemory),
    };
    let names = image_names(alloc, &topology)?;
    match contents(alloc, names.as_slice(), files) {
        Ok(images) => match logged(alloc, clocks, stats, &topology, images) {
            Ok(text) => Ok(text),
            Err(fault) => Err(too_long(fault)),
        },
        Err(fault) => Err(unread(fault)),
    }
}
