ghost use Rattle.std.specs.Prelude.{◌≡◌, ◌≤◌, map, All, IfOk, IfErr};
ghost use Rattle.global_model.specs.Runs.{HasLogsOf, HasCountsOf};
ghost use Rattle.proxy_crew.specs.Dialing.{DialTells};
ghost use Rattle.proxy_members.specs.Differing.{AllAgree};
ghost use Rattle.run_threads.specs.Proxied.{proxied, AreAllNew};
ghost use Rattle.thread_run.specs.Spent.{IsSpent};
ghost use Rattle.thread_run.specs.Whole.{AreWhole, AreEndsOf, AreBetween, IsCause};

use crate::closing::{Rooms, close_all};
use cs_base::wiring::Wiring;
use cs_base::{Dialer, Gate, WireEnd};
use device_api::{Device, Outcome};
use run_threads::laws::{an_ended_crew_leaves_the_global_run, sides_merge};
use run_threads::{BuildBad, Crew, MeshBad, Queues, run_mesh};
use slot_queue::{Consumer, Producer, Rest, SlotQueue};
use std::alloc::Global;
use std::sync::Wait;
use std::thread::Threads;
use tcp_proxy::what_was_pushed_was_popped;

/// What a run leaves: how it ended, what each component logged and how many messages went on each channel, the closed
/// queues in their order, and what is left of the channels that go by proxy.
#[derive(Drop)]
pub struct WholeRun<O, I> {
    pub ended: Result<(), MeshBad>,
    pub outcome: Outcome,
    pub rests: Vec<Rest>,
    pub ends: Vec<WireEnd<O, I>>,
}

/// What a crew leaves that has run: how it ended, what its components logged, both sides of the queues in their order, and
/// what is left of the channels that go by proxy.
#[derive(Drop)]
struct Spent<O, I> {
    ended: Result<(), MeshBad>,
    outcome: Outcome,
    producers: Vec<Producer>,
    consumers: Vec<Consumer>,
    ends: Vec<WireEnd<O, I>>,
}

/// Runs the crew of devices at their start until all have ended, or one meets a fault.
fn run_crew<'q, R: Threads + Wait + Sync, V: Device + Send, D: Dialer, G: Gate + Sync>(
    rt: &R,
    alloc: Global,
    queues: &'q [SlotQueue],
    producers: Vec<Producer>,
    consumers: Vec<Consumer>,
    devices: Vec<V>,
    wiring: &Wiring,
    workers: u32,
    dial: &mut D,
    gate: &G,
) -> Result<Spent<D::Out, D::In>, BuildBad>
where
    D::Out: Drop + Send,
    D::In: Drop + Send,
    requires new { AreAllNew wiring.now.kinds wiring.now.links
        queues.now producers.items consumers.items }
    requires matches { map V.behaviour.ports devices.items ≡ wiring.now.kinds }
    requires at_start { All (λ device. V.settled device 0) devices.items }
    requires workers { (1 ≤ workers) × (workers ≤ 64) }
    ensures told { DialTells result (proxied wiring.now.links) (D.seen dial.old) (D.seen dial.new) }
    ensures spent { IfOk result (λ spent. IsSpent V.behaviour D.Out.seen D.In.seen
        devices.items wiring.now.kinds wiring.now.links wiring.now.end queues.now
        spent.ended spent.outcome.logs.lists spent.outcome.counts
        spent.producers.items spent.consumers.items spent.ends.items) }
{
    an_ended_crew_leaves_the_global_run::<V>();
    let mut crew = Crew::build(
        alloc, queues, producers, consumers, devices, wiring, workers, dial,
    )?;
    let ended = run_mesh(rt, alloc, &mut crew, gate);
    let (outcome, producers, consumers, ends) = crew.finish();
    Ok(Spent {
        ended,
        outcome,
        producers,
        consumers,
        ends,
    })
}

/// Runs devices from their start on so many workers, 1 to 64, joined by a wiring of which links may go by proxy, until all
/// have ended or one meets a fault. Each channel by proxy is dialed once, in order; where one can't be had, nothing runs. It
/// may wait for ever. Where it ends without a fault, what it leaves is what the global run leaves.
pub fn run_whole<R: Threads + Wait + Sync, V: Device + Send, D: Dialer, G: Gate + Sync>(
    rt: &R,
    alloc: Global,
    devices: Vec<V>,
    wiring: &Wiring,
    workers: u32,
    dial: &mut D,
    gate: &G,
) -> Result<WholeRun<D::Out, D::In>, BuildBad>
where
    D::Out: Drop + Send,
    D::In: Drop + Send,
    requires matches { map V.behaviour.ports devices.items ≡ wiring.now.kinds }
    requires at_start { All (λ device. V.settled device 0) devices.items }
    requires workers { (1 ≤ workers) × (workers ≤ 64) }
    ensures told { DialTells result (proxied wiring.now.links) (D.seen dial.old) (D.seen dial.new) }
    ensures logs { IfOk result (λ run. IfOk run.ended (λ _.
        HasLogsOf V.behaviour devices.items wiring.now run.outcome)) }
    ensures counts { IfOk result (λ run. IfOk run.ended (λ _.
        HasCountsOf V.behaviour devices.items wiring.now run.outcome)) }
    ensures rests { IfOk result (λ run. IfOk run.ended (λ _. AreWhole V.behaviour devices.items
        wiring.now.links wiring.now.end run.rests.items)) }
    ensures agree { IfOk result (λ run. IfOk run.ended (λ _. AllAgree run.ends.items)) }
    ensures ends { IfOk result (λ run. AreEndsOf D.Out.seen D.In.seen
        wiring.now.kinds wiring.now.links run.ends.items) }
    ensures between { IfOk result (λ run. AreBetween wiring.now.kinds wiring.now.links
        run.rests.items run.ends.items) }
    ensures cause { IfOk result (λ run. IfErr run.ended (IsCause D.Out.seen D.In.seen
        wiring.now.kinds wiring.now.links run.ends.items)) }
{
    sides_merge();
    what_was_pushed_was_popped();
    let made = Queues::build(alloc, wiring)?;
    let Queues {
        queues,
        producers,
        consumers,
    } = made;
    let rooms = Rooms::reserve(alloc, wiring.links.as_slice())?;
    let left = run_crew(
        rt,
        alloc,
        queues.as_slice(),
        producers,
        consumers,
        devices,
        wiring,
        workers,
        dial,
        gate,
    )?;
    let Spent {
        ended,
        outcome,
        producers,
        consumers,
        ends,
    } = left;
    let rests = close_all(queues, producers, consumers, rooms);
    Ok(WholeRun {
        ended,
        outcome,
        rests,
        ends,
    })
}
