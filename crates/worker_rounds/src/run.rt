ghost use Rattle.std.specs.Prelude.{◌≡◌, ◌↔◌, ◌<◌, ◌≤◌, length, All, IsTrue, IfOk, IfErr};
ghost use Rattle.worker_rounds.specs.Rounds.{Worked, IsSound};
ghost use Rattle.worker_rounds.specs.Crew.{AreSound, AllWorked, AllEnded, FirstKept, IsFirstKept, order_of, sooner_of};

use crate::member::Member;
use crate::mesh_bad::MeshBad;
use crate::worker::Worker;
use cs_base::Gate;
use std::alloc::Global;
use std::sync::Wait;
use std::sync::atomic::AtomicBool;
use std::thread;
use std::thread::Threads;

/// The quiet rounds in a row of a worker on a thread of its own, each of 64 passes or more, and of one that shares its thread.
const ALONE: u32 = 4096;

const SHARED: u32 = 1;

/// How many threads are of use: one for each processor, or one where that can't be told.
fn processors(rt: &impl Threads) -> usize
    ensures { 1 ≤ result }
{
    match thread::available_parallelism(rt) {
        Ok(count) => count.get(),
        Err(_) => 1,
    }
}

/// How many quiet rounds in a row a worker makes before it ends: as many as last for many milliseconds where each has a
/// thread of its own, and one where others wait for its thread.
fn quiet_rounds(workers: usize, threads: usize) -> u32 {
    if workers <= threads { ALONE } else { SHARED }
}

fn work_one<M: Member, G: Gate>(
    worker: &mut Worker<M>,
    alloc: Global,
    gate: &G,
    quiet_rounds: u32,
    faulted: &AtomicBool,
)
    requires { IsSound M.fits worker.old }
    ensures { Worked M.does M.fails M.fits worker.old worker.new }
{
    worker.work(alloc, gate, quiet_rounds, faulted);
}

/// Each worker makes rounds, on threads where they can be had. A fault ends the rounds of all.
fn work_all<R: Threads + Sync, M: Member + Send, G: Gate + Sync>(
    rt: &R,
    alloc: Global,
    workers: &mut [Worker<M>],
    threads: usize,
    gate: &G,
)
    requires threads { 0 < threads }
    requires sound { AreSound M.fits workers.old }
    ensures { AllWorked M.does M.fails M.fits workers.old workers.new }
{
    let quiet_rounds = quiet_rounds(workers.len(), threads);
    let faulted = AtomicBool::new(false);
    thread::for_each_mut(
        rt,
        workers,
        threads,
        &|_, worker| work_one(worker, alloc, gate, quiet_rounds, &faulted),
    );
}

/// Whether the members of all workers have ended.
fn all_ended<M: Member>(workers: &[Worker<M>]) -> bool
    ensures { IsTrue result ↔ AllEnded M.ended workers.now }
{
    for worker in workers {
        if !worker.ended() {
            return false;
        }
    }
    true
}

/// A fault's place in the order in which faults are told.
fn order_of(fault: MeshBad) -> u64
    ensures { result ≡ order_of fault }
{
    match fault {
        MeshBad::Lost { channel } => channel as u64,
        MeshBad::Peer { channel, .. } => (1 << 32) + channel as u64,
        MeshBad::Differs { channel, .. } => (1 << 33) + channel as u64,
        MeshBad::NoMemory => 1 << 34,
    }
}

/// The sooner of two faults in that order.
fn sooner_of(fault: Option<MeshBad>, other: Option<MeshBad>) -> Option<MeshBad>
    ensures { result ≡ sooner_of fault other }
{
    let Some(first) = fault else {
        return other;
    };
    let Some(second) = other else {
        return fault;
    };
    if order_of(first) <= order_of(second) {
        fault
    } else {
        other
    }
}

/// The first of the faults that workers keep.
fn first_fault<M>(workers: &[Worker<M>]) -> Option<MeshBad>
    ensures { FirstKept workers.now (length workers.now) result }
{
    let mut first = None;
    for worker in workers {
        first = sooner_of(first, worker.fault());
    }
    first
}

/// Lets all workers make rounds, each with its members on one thread, until all members have ended or a turn has met a
/// fault. It may wait for ever.
pub fn run_all<R: Threads + Wait + Sync, M: Member + Send, G: Gate + Sync>(
    rt: &R,
    alloc: Global,
    workers: &mut [Worker<M>],
    gate: &G,
) -> Result<(), MeshBad>
    requires { AreSound M.fits workers.old }
    ensures worked { AllWorked M.does M.fails M.fits workers.old workers.new }
    ensures sound { IfOk result (λ _. AreSound M.fits workers.new) }
    ensures ended { IfOk result (λ _. AllEnded M.ended workers.new) }
    ensures fault { IfErr result (IsFirstKept workers.new (length workers.new)) }
{
    let threads = processors(rt);
    for _ in rt.forever() {
        if all_ended(workers) {
            return Ok(());
        }
        work_all(rt, alloc, workers, threads, gate);
        if let Some(fault) = first_fault(workers) {
            return Err(fault);
        }
    }
    unreachable!()
}
