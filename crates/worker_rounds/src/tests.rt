//! Members that count down, on one worker and on many.
ghost use Rattle.std.specs.Prelude.{◌≡◌, ◌≤◌, ◌+◌, ◌%◌, ◌^◌, IfOk};
ghost use Rattle.worker_rounds.specs.Crew.{AreSound};
ghost use Rattle.worker_rounds.specs.Rounds.{IsSound};

use crate::{Member, MeshBad, RoundEnd, Worker, run_all};
use cs_base::no_memory::NoMemory;
use cs_base::{Gate, OpenGate};
use std::alloc::Global;
use std::sync::atomic::{AtomicU64, Ordering};
use std::test::Fail;
use std::thread;

/// It moves so many times, and then it has ended, or meets a fault.
#[derive(Drop)]
struct Countdown {
    left: u64,
    fault: Option<MeshBad>,
    turns: u64,
    still: u32,
}

impl Member for Countdown {
    ghost use Rattle.std.specs.Prelude.{◌≡◌, ◌≤◌, ◌+◌, ◌%◌, ◌^◌, Some};

    ghost fits = { λ member. member.still ≤ 64 };

    ghost does = { λ old new. (new.turns ≡ (old.turns + 1) % 2 ^ 64) × (new.still ≤ 64) };

    ghost fails = { λ old fault new. old.fault ≡ Some fault };

    ghost ended = { λ member. member.left ≡ 0 };

    ghost turns = { λ member. member.turns };

    ghost still = { λ member. member.still };

    fn turn(&mut self, _alloc: Global) -> Result<(), MeshBad> {
        self.turns = self.turns.wrapping_add(1);
        if self.left > 0 {
            self.left -= 1;
            self.still = 0;
            return Ok(());
        }
        if let Some(fault) = self.fault {
            return Err(fault);
        }
        if self.still < 64 {
            self.still += 1;
        }
        Ok(())
    }

    fn still(&self) -> u32 {
        self.still
    }

    fn ended(&self) -> bool {
        self.left == 0
    }

    ghost keeps = { λ old new did fit. did.1 };

    ghost counts = { λ old new did. did.0 };
}

/// A worker with one member.
fn worker(
    alloc: Global,
    number: u32,
    left: u64,
    fault: Option<MeshBad>,
) -> Result<Worker<Countdown>, NoMemory>
    ensures { IfOk result (IsSound ⟦<Countdown as Member>⟧.fits) }
{
    let mut members = Vec::new(alloc);
    members.push(Countdown {
        left,
        fault,
        turns: 0,
        still: 0,
    })?;
    Ok(Worker::new(number, members))
}

/// So many workers with one member each, of which the last meets the fault.
fn workers(
    alloc: Global,
    count: u32,
    fault: Option<MeshBad>,
) -> Result<Vec<Worker<Countdown>>, NoMemory>
    ensures { IfOk result (λ made. AreSound ⟦<Countdown as Member>⟧.fits made.items) }
{
    let mut made = Vec::new(alloc);
    for number in 0..count {
        let its = if number + 1 == count { fault } else { None };
        made.push(worker(alloc, number, 1000 + number as u64, its)?)?;
    }
    Ok(made)
}

#[test]
fn a_round_ends_when_nothing_moves(rt: HostRuntime) -> Result<(), Fail> {
    let mut one = worker(rt.alloc(), 0, 100, None)?;
    assert!(rt; one.round(rt.alloc(), &OpenGate) == RoundEnd::Quiet);
    Ok(())
}

#[test]
fn a_round_ends_after_so_many_passes(rt: HostRuntime) -> Result<(), Fail> {
    let mut one = worker(rt.alloc(), 0, 5000, None)?;
    assert!(rt; one.round(rt.alloc(), &OpenGate) == RoundEnd::Spent);
    Ok(())
}

#[test]
fn all_come_to_their_end(rt: HostRuntime) -> Result<(), Fail> {
    for count in [1, 2, 5, 64] {
        let mut all = workers(rt.alloc(), count, None)?;
        assert!(rt; run_all(&rt, rt.alloc(), all.as_mut_slice(), &OpenGate).is_ok());
    }
    Ok(())
}

#[test]
fn a_fault_ends_the_run(rt: HostRuntime) -> Result<(), Fail> {
    let mut all = workers(rt.alloc(), 3, Some(MeshBad::Lost { channel: 4 }))?;
    let ended = run_all(&rt, rt.alloc(), all.as_mut_slice(), &OpenGate);
    assert!(rt; ended == Err(MeshBad::Lost { channel: 4 }));
    Ok(())
}

/// It holds worker 0 until worker 1 has passed, for so many turns at most.
#[derive(Drop)]
struct Meeting {
    passed: AtomicU64,
    missed: AtomicU64,
}

impl Gate for Meeting {
    fn pass(&self, worker: u32) {
        if worker == 1 {
            self.passed.store(1, Ordering::SeqCst);
            return;
        }
        for _ in 0..10_000_000u32 {
            if self.passed.load(Ordering::SeqCst) == 1 {
                return;
            }
            thread::yield_now();
        }
        self.missed.store(1, Ordering::SeqCst);
    }
}

#[test]
fn two_workers_run_at_once(rt: HostRuntime) -> Result<(), Fail> {
    let meeting = Meeting {
        passed: AtomicU64::new(0),
        missed: AtomicU64::new(0),
    };
    let mut all = workers(rt.alloc(), 2, None)?;
    assert!(rt; run_all(&rt, rt.alloc(), all.as_mut_slice(), &meeting).is_ok());
    assert_eq!(rt; meeting.missed.load(Ordering::SeqCst), 0);
    Ok(())
}

/// It lets the workers pass at their first round, and counts the later rounds of worker 0.
#[derive(Drop)]
struct Rounds {
    made: AtomicU64,
}

impl Gate for Rounds {
    fn pass(&self, worker: u32) {
        if worker == 0 {
            self.made.fetch_add(1, Ordering::SeqCst);
        }
    }
}

/// A worker that never ends nor moves shares the run with one that meets a fault.
#[test]
fn a_fault_ends_the_rounds_of_others(rt: HostRuntime) -> Result<(), Fail> {
    let rounds = Rounds {
        made: AtomicU64::new(0),
    };
    let mut all = Vec::new(rt.alloc());
    all.push(worker(rt.alloc(), 0, u64::MAX, None)?)?;
    all.push(worker(rt.alloc(), 1, 1000, Some(MeshBad::Lost { channel: 4 }))?)?;
    let ended = run_all(&rt, rt.alloc(), all.as_mut_slice(), &rounds);
    assert!(rt; ended == Err(MeshBad::Lost { channel: 4 }));
    assert!(rt; rounds.made.load(Ordering::SeqCst) < 1 << 20);
    Ok(())
}
