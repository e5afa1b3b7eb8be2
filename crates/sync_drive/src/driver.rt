ghost use Rattle.std.specs.Prelude.{◌≡◌, ◌+◌, ◌%◌, ◌^◌, IfOk, IfErr, OnOk};
ghost use Rattle.sync_drive.specs.declared.turn.Turn.TheVariants.{Moved};
ghost use Rattle.sync_drive.specs.Standing.{IsFit};
ghost use Rattle.sync_drive.specs.Turns.{Turned, Failed, NothingMoved, still_after};

use crate::make::make;
use crate::turn::Turn;
use device_api::Device;
use port_queue::{RxPort, TxPort};
use std::alloc::Global;
use sync_rule::{RunBad, Runner};

/// A component's runner, and the ends of its channels: one to send and one to receive for each port. After a `RunBad`
/// it is spent.
#[derive(Drop)]
pub struct Driver<V, T, R> {
    runner: Runner<V>,
    txs: Vec<T>,
    rxs: Vec<R>,
    turns: u64,
    still: u32,
}

/// One more turn in a row that moved nothing, 64 at most; none after one that moved something or failed.
fn still_after(answer: &Result<Turn, RunBad>, still: u32) -> u32
    ensures { result ≡ still_after answer.now still }
{
    match answer {
        Ok(Turn::Moved) | Err(_) => 0,
        Ok(Turn::Idle(_) | Turn::Ended) => { if still < 64 { still + 1 } else { 64 } }
    }
}

impl<V: Device, T: TxPort, R: RxPort> Driver<V, T, R> {
    /// A driver that has made no turn.
    pub fn new(runner: Runner<V>, txs: Vec<T>, rxs: Vec<R>) -> Driver<V, T, R>
        ensures runner { result.runner ≡ runner }
        ensures txs { result.txs ≡ txs }
        ensures rxs { result.rxs ≡ rxs }
        ensures turns { result.turns ≡ 0 }
        ensures still { result.still ≡ 0 }
    {
        Driver {
            runner,
            txs,
            rxs,
            turns: 0,
            still: 0,
        }
    }

    /// Tries each port's send once, then polls each port once, then processes events, 4,096 at most: the first is always
    /// tried, and fewer are processed only where the next may not be.
    pub fn turn(&mut self, alloc: Global) -> Result<Turn, RunBad>
        requires fit { IsFit V.behaviour V.settled T.kind T.stands R.kind R.stands
            self.old.runner self.old.txs.items self.old.rxs.items }
        ensures turned { IfOk result (Turned V.behaviour T.pushes T.refuses R.pops R.empties
            self.old.runner self.old.txs.items self.old.rxs.items
            self.new.runner self.new.txs.items self.new.rxs.items) }
        ensures unmoved { IfOk result (λ turn. (turn ≡ Moved → ⊥)
            → NothingMoved V.behaviour T.refuses R.empties
            self.old.runner self.old.txs.items self.old.rxs.items
            self.new.runner self.new.txs.items self.new.rxs.items) }
        ensures failed { IfErr result (Failed T.pushes T.refuses R.pops R.empties
            self.old.runner self.old.txs.items self.old.rxs.items
            self.new.runner self.new.txs.items self.new.rxs.items) }
        ensures fit { OnOk result (IsFit V.behaviour V.settled T.kind T.stands R.kind R.stands
            self.new.runner self.new.txs.items self.new.rxs.items) }
        ensures turns { self.new.turns ≡ (self.old.turns + 1) % 2 ^ 64 }
        ensures still { self.new.still ≡ still_after result self.old.still }
    {
        self.turns = self.turns.wrapping_add(1);
        let answer = make(
            alloc,
            &mut self.runner,
            self.txs.as_mut_slice(),
            self.rxs.as_mut_slice(),
        );
        self.still = still_after(&answer, self.still);
        answer
    }

    pub fn runner(&self) -> &Runner<V>
        ensures { result.now ≡ self.now.runner }
    {
        &self.runner
    }

    /// The runner, and the ends to send and to receive.
    pub fn close(self) -> (Runner<V>, Vec<T>, Vec<R>)
        ensures runner { result.0 ≡ self.runner }
        ensures txs { result.1 ≡ self.txs }
        ensures rxs { result.2 ≡ self.rxs }
    {
        let Driver {
            runner,
            txs,
            rxs,
            ..
        } = self;
        (runner, txs, rxs)
    }

    /// The number of its turns, modulo 2^64.
    pub fn turns(&self) -> u64
        ensures { result ≡ self.now.turns }
    {
        self.turns
    }

    /// How many of its latest turns in a row moved nothing, 64 at most.
    pub fn still(&self) -> u32
        ensures { result ≡ self.now.still }
    {
        self.still
    }
}
