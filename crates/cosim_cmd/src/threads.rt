//! The run of a topology on threads: what `model` writes, by components on workers.
ghost use Rattle.std.specs.Prelude.{◌≡◌, ◌≤◌, ◌⊎◌, [], All, map, IfOk, IfErr};
ghost use Rattle.device_set.specs.AnyKind.{any_device, IsSettledDevice};
ghost use Rattle.global_model.specs.Runs.{HasLogsOf, HasCountsOf};
ghost use Rattle.thread_run.specs.Whole.{AreWhole};
ghost use Rattle.cosim_cmd.specs.Broken.{wires, AreUntouched, AreDialedFor, HasCarried, IsRunFault};
ghost use Rattle.cosim_cmd.specs.Inputs.{AreImages, OfRead, AsksIfAny};
ghost use Rattle.cosim_cmd.specs.Model.{run_text};
ghost use Rattle.cosim_cmd.specs.Replay.{AreOfHosts};
ghost use Rattle.cosim_cmd.specs.Threads.{IsThreaded, IsRunOf, DialsForSystem, DialsForText, IsReadyBad, IsSystemBad, IsTextBad, IsEarly};

use crate::breaks::{Break, broken, faulted};
use crate::input::contents;
use crate::model::started;
use crate::outcomes::outcome_text;
use crate::refusal::{Fault, OutputBad, too_long, unread};
use crate::run_words::Run;
use crate::topology_text::topology;
use cs_base::{Dialer, Files, Gate, Octets, WireEnd};
use device_api::Outcome;
use device_set::{AnyDevice, image_names};
use run_threads::BuildBad;
use slot_queue::Rest;
use std::alloc::Global;
use std::sync::Wait;
use std::thread::Threads;
use thread_run::{WholeRun, run_whole};
use topology_file::Topology;

/// What a run writes, and its closed queues.
#[derive(Drop)]
pub struct RunOutput {
    pub text: Octets,
    pub rests: Vec<Rest>,
}

/// What devices leave that have run to their end.
#[derive(Drop)]
struct Ended {
    outcome: Outcome,
    rests: Vec<Rest>,
}

/// The run of a topology's devices on as many workers as the words say.
fn run_devices<R: Threads + Wait + Sync, D: Dialer, G: Gate + Sync>(
    rt: &R,
    alloc: Global,
    words: &Run,
    topology: &Topology,
    devices: Vec<AnyDevice>,
    dial: &mut D,
    ends: &mut Vec<WireEnd<D::Out, D::In>>,
    gate: &G,
) -> Result<Ended, OutputBad>
where
    D::Out: Drop + Send,
    D::In: Drop + Send,
    requires matches { map any_device.ports devices.items ≡ topology.now.wiring.kinds }
    requires at_start { All (λ device. IsSettledDevice device 0) devices.items }
    requires workers { (1 ≤ words.now.workers) × (words.now.workers ≤ 64) }
    requires none_left { ends.old.items ≡ [] }
    ensures logs { IfOk result (λ ran.
        HasLogsOf any_device devices.items topology.now.wiring ran.outcome) }
    ensures counts { IfOk result (λ ran.
        HasCountsOf any_device devices.items topology.now.wiring ran.outcome) }
    ensures rests { IfOk result (λ ran. AreWhole any_device devices.items
        topology.now.wiring.links topology.now.wiring.end ran.rests.items) }
    ensures carried { IfOk result (λ ran. HasCarried (wires D.Out.seen D.In.seen
        (D.seen dial.old) (D.seen dial.new) ends.new.items) topology.now ran.rests.items) }
    ensures refused { IfErr result (IsRunFault (wires D.Out.seen D.In.seen
        (D.seen dial.old) (D.seen dial.new) ends.new.items) topology.now) }
    ensures dialed { AreDialedFor (wires D.Out.seen D.In.seen
        (D.seen dial.old) (D.seen dial.new) ends.new.items) topology.now }
{
    let ran = run_whole(
        rt,
        alloc,
        devices,
        &topology.wiring,
        words.workers(),
        dial,
        gate,
    );
    let WholeRun {
        ended,
        outcome,
        rests,
        ends: left,
    } = match ran {
        Ok(run) => run,
        Err(BuildBad::Lost { channel }) => return Err(broken(alloc, Break::Lost { channel })),
        Err(BuildBad::NoMemory) => return Err(OutputBad::NoMemory),
    };
    *ends = left;
    match ended {
        Ok(()) => Ok(Ended { outcome, rests }),
        Err(fault) => Err(faulted(alloc, fault)),
    }
}

/// What is written and left of a topology's devices.
fn threaded<R: Threads + Wait + Sync, D: Dialer, G: Gate + Sync>(
    rt: &R,
    alloc: Global,
    words: &Run,
    topology: &Topology,
    devices: Vec<AnyDevice>,
    dial: &mut D,
    ends: &mut Vec<WireEnd<D::Out, D::In>>,
    gate: &G,
) -> Result<RunOutput, OutputBad>
where
    D::Out: Drop + Send,
    D::In: Drop + Send,
    requires matches { map any_device.ports devices.items ≡ topology.now.wiring.kinds }
    requires at_start { All (λ device. IsSettledDevice device 0) devices.items }
    requires workers { (1 ≤ words.now.workers) × (words.now.workers ≤ 64) }
    requires none_left { ends.old.items ≡ [] }
    ensures text { IfOk result (λ made.
        made.text ≡ run_text words.now.stats topology.now devices.items) }
    ensures rests { IfOk result (λ made. AreWhole any_device devices.items
        topology.now.wiring.links topology.now.wiring.end made.rests.items) }
    ensures carried { IfOk result (λ made. HasCarried (wires D.Out.seen D.In.seen
        (D.seen dial.old) (D.seen dial.new) ends.new.items) topology.now made.rests.items) }
    ensures refused { IfErr result (IsRunFault (wires D.Out.seen D.In.seen
        (D.seen dial.old) (D.seen dial.new) ends.new.items) topology.now) }
    ensures dialed { AreDialedFor (wires D.Out.seen D.In.seen
        (D.seen dial.old) (D.seen dial.new) ends.new.items) topology.now }
{
    let ran = match run_devices(rt, alloc, words, topology, devices, dial, ends, gate) {
        Ok(ran) => ran,
        Err(bad) => return Err(bad),
    };
    let text = outcome_text(alloc, words.stats(), topology, &ran.outcome)?;
    Ok(RunOutput {
        text,
        rests: ran.rests,
    })
}

/// The run of a topology with these programs.
fn ready<R: Threads + Wait + Sync, D: Dialer, G: Gate + Sync>(
    rt: &R,
    alloc: Global,
    words: &Run,
    topology: &Topology,
    images: Vec<Octets>,
    dial: &mut D,
    ends: &mut Vec<WireEnd<D::Out, D::In>>,
    gate: &G,
) -> Result<RunOutput, OutputBad>
where
    D::Out: Drop + Send,
    D::In: Drop + Send,
    requires workers { (1 ≤ words.now.workers) × (words.now.workers ≤ 64) }
    requires none_left { ends.old.items ≡ [] }
    ensures made { IfOk result (λ made. IsThreaded (wires D.Out.seen D.In.seen
        (D.seen dial.old) (D.seen dial.new) ends.new.items)
        words.now.stats topology.now images.items made.text made.rests.items) }
    ensures refused { IfErr result (IsReadyBad (wires D.Out.seen D.In.seen
        (D.seen dial.old) (D.seen dial.new) ends.new.items) topology.now images.items) }
    ensures dialed { AreUntouched (wires D.Out.seen D.In.seen
        (D.seen dial.old) (D.seen dial.new) ends.new.items)
        ⊎ AreDialedFor (wires D.Out.seen D.In.seen
        (D.seen dial.old) (D.seen dial.new) ends.new.items) topology.now }
    ensures untouched { IfErr result (λ bad. IsEarly bad → AreUntouched (wires D.Out.seen D.In.seen
        (D.seen dial.old) (D.seen dial.new) ends.new.items)) }
{
    match started(alloc, topology, images) {
        Ok(devices) => threaded(rt, alloc, words, topology, devices, dial, ends, gate),
        Err(fault) => Err(too_long(fault)),
    }
}

/// What is written and left of a topology. The programs of hosts are read first.
fn on_threads<R: Threads + Wait + Sync, F: Files, D: Dialer, G: Gate + Sync>(
    rt: &R,
    alloc: Global,
    words: &Run,
    topology: &Topology,
    files: &mut F,
    dial: &mut D,
    ends: &mut Vec<WireEnd<D::Out, D::In>>,
    gate: &G,
) -> Result<RunOutput, OutputBad>
where
    D::Out: Drop + Send,
    D::In: Drop + Send,
    requires workers { (1 ≤ words.now.workers) × (words.now.workers ≤ 64) }
    requires none_left { ends.old.items ≡ [] }
    ensures made { IfOk result (λ made.
        OfRead (AreOfHosts topology.now) (F.seen files.old) (F.seen files.new)
        (λ images. IsThreaded (wires D.Out.seen D.In.seen
        (D.seen dial.old) (D.seen dial.new) ends.new.items)
        words.now.stats topology.now images made.text made.rests.items)) }
    ensures refused { IfErr result (IsSystemBad (wires D.Out.seen D.In.seen
        (D.seen dial.old) (D.seen dial.new) ends.new.items)
        topology.now (F.seen files.old) (F.seen files.new)) }
    ensures asked { AsksIfAny (AreOfHosts topology.now) (F.seen files.old) (F.seen files.new) }
    ensures files_kept { (F.seen files.new).held ≡ (F.seen files.old).held }
    ensures dialed { DialsForSystem (wires D.Out.seen D.In.seen
        (D.seen dial.old) (D.seen dial.new) ends.new.items)
        topology.now (F.seen files.old) (F.seen files.new) }
    ensures untouched { IfErr result (λ bad. IsEarly bad → AreUntouched (wires D.Out.seen D.In.seen
        (D.seen dial.old) (D.seen dial.new) ends.new.items)) }
{
    let names = image_names(alloc, topology)?;
    let images = match contents(alloc, names.as_slice(), files) {
        Ok(images) => images,
        Err(fault) => return Err(unread(fault)),
    };
    ready(rt, alloc, words, topology, images, dial, ends, gate)
}

/// What is written and left of a topology text.
pub fn run_of_text<R: Threads + Wait + Sync, F: Files, D: Dialer, G: Gate + Sync>(
    rt: &R,
    alloc: Global,
    words: &Run,
    bytes: &[u8],
    files: &mut F,
    dial: &mut D,
    ends: &mut Vec<WireEnd<D::Out, D::In>>,
    gate: &G,
) -> Result<RunOutput, OutputBad>
where
    D::Out: Drop + Send,
    D::In: Drop + Send,
    requires workers { (1 ≤ words.now.workers) × (words.now.workers ≤ 64) }
    requires none_left { ends.old.items ≡ [] }
    ensures made { IfOk result (λ made.
        OfRead (AreImages bytes.now) (F.seen files.old) (F.seen files.new)
        (λ images. IsRunOf (wires D.Out.seen D.In.seen
        (D.seen dial.old) (D.seen dial.new) ends.new.items)
        words.now.stats bytes.now images made.text made.rests.items)) }
    ensures refused { IfErr result (IsTextBad (wires D.Out.seen D.In.seen
        (D.seen dial.old) (D.seen dial.new) ends.new.items)
        bytes.now (F.seen files.old) (F.seen files.new)) }
    ensures asked { AsksIfAny (AreImages bytes.now) (F.seen files.old) (F.seen files.new) }
    ensures files_kept { (F.seen files.new).held ≡ (F.seen files.old).held }
    ensures dialed { DialsForText (wires D.Out.seen D.In.seen
        (D.seen dial.old) (D.seen dial.new) ends.new.items)
        bytes.now (F.seen files.old) (F.seen files.new) }
    ensures untouched { IfErr result (λ bad. IsEarly bad → AreUntouched (wires D.Out.seen D.In.seen
        (D.seen dial.old) (D.seen dial.new) ends.new.items)) }
{
    let topology = match topology(alloc, bytes) {
        Ok(topology) => topology,
        Err(Fault::Line(line)) => return Err(OutputBad::Topology(line)),
        Err(Fault::NoMemory) => return Err(OutputBad::NoMemory),
    };
    on_threads(rt, alloc, words, &topology, files, dial, ends, gate)
}
