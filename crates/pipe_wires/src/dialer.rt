ghost use Rattle.std.specs.Prelude.{◌≡◌, ◌≤◌, [], slice_get, IfOk, IfSome, OnOk, option_map};
ghost use Rattle.std.specs.List.{Contains};
ghost use Rattle.cs_base.specs.Outside.{Rose};
ghost use Rattle.cs_base.specs.Wires.{IsFreshOut, IsFreshIn, dialed_after};
ghost use Rattle.pipe_wires.specs.Pipes.{new_out, new_in, out_seen, in_seen, dialer_seen};

use crate::ends::{Gives, PipeIn, PipeOut, Shared, one_more};
use crate::plan::PipePlan;
use crate::ring::Ring;
use cs_base::dialer::{DialBad, Dialer};
use cs_base::items::Items;
use cs_base::no_memory::NoMemory;
use cs_base::queue::Queue;
use std::alloc::Global;
use std::marker::Model;
use std::sync::{Arc, Mutex};

/// Makes pipes, for tests: the first by plans, in order, and the others plain. The dials of stated channels fail. Each
/// pipe takes the memory for the bytes under way when it is dialed.
#[derive(Drop)]
pub struct PipeDialer {
    plans: Queue<PipePlan>,
    failing: Items<u32>,
    dialed: Items<u32>,
    faults: u64,
}

impl Model for PipeDialer {
    ghost use Rattle.pipe_wires.specs.Pipes.{PipeDials};

    ghost Value = { PipeDials };

    ghost view = { λ d. record {
      plans = d.plans.items;
      failing = d.failing;
      dialed = d.dialed;
      faults = d.faults;
    } };
}

impl PipeDialer {
    /// A dialer that has dialed nothing.
    pub fn new(alloc: Global, plans: Queue<PipePlan>, failing: Items<u32>) -> PipeDialer
        ensures { result
            ≡ record { plans = plans.items; failing = failing; dialed = []; faults = 0 } }
    {
        PipeDialer {
            plans,
            failing,
            dialed: Items::new(alloc),
            faults: 0,
        }
    }
}

// The bytes of a pipe, for both of its ends.
fn shared_ring(alloc: Global) -> Result<(Shared, Shared), NoMemory> {
    let ring = Arc::new(alloc, Mutex::new(Ring::new(alloc)?))?;
    let other = Arc::try_clone(&ring)?;
    Ok((ring, other))
}

// The two ends of a pipe.
fn ends(ring: Shared, other: Shared, plan: PipePlan) -> (PipeOut, PipeIn)
    ensures out { result.0 ≡ new_out plan.failed_sends }
    ensures wire { result.1 ≡ new_in plan.failed_receipts }
{
    let PipePlan {
        piece,
        pauses,
        failed_sends,
        failed_receipts,
        changed,
        end,
    } = plan;
    let gives = Gives {
        piece,
        pauses,
        failing: failed_receipts,
        changed,
        end,
    };
    (PipeOut::new(ring, failed_sends), PipeIn::new(other, gives))
}

impl Dialer for PipeDialer {
    type Out = PipeOut;

    type In = PipeIn;

    ghost use Rattle.pipe_wires.specs.Pipes.{dialer_seen};

    ghost seen = { dialer_seen };

    fn faults(&self) -> u64 {
        self.faults
    }

    /// Which dials fail is exact, but for want of memory.
    fn dial(&mut self, alloc: Global, channel: u32) -> Result<(PipeOut, PipeIn), DialBad>
        ensures out { IfOk result (λ wires. IsFreshOut (out_seen wires.0)) }
        ensures wire { IfOk result (λ wires. IsFreshIn (in_seen wires.1)) }
        ensures dialed { (dialer_seen self.new).dialed
            ≡ option_map (dialed_after result channel) (dialer_seen self.old).dialed }
        ensures never_falls { (dialer_seen self.old).faults ≤ (dialer_seen self.new).faults }
        ensures no_fault { OnOk result ((dialer_seen self.new).faults
            ≡ (dialer_seen self.old).faults) }
        ensures failed { result ≡ Err DialBad.Failed
            → Rose (dialer_seen self.old).faults (dialer_seen self.new).faults }
        ensures planned { result ≡ Err DialBad.Failed → Contains self.old.failing channel }
        ensures plain { OnOk result (Contains self.old.failing channel → ⊥) }
        ensures sends { IfOk result (λ wires. IfSome (slice_get self.old.plans 0)
            (λ plan. wires.0.failing ≡ plan.failed_sends)) }
        ensures receipts { IfOk result (λ wires. IfSome (slice_get self.old.plans 0)
            (λ plan. wires.1.failing ≡ plan.failed_receipts)) }
        ensures failing { self.new.failing ≡ self.old.failing }
        ensures no_memory { result ≡ Err DialBad.NoMemory → self.new ≡ self.old }
    {
        if self.failing.as_slice().contains(&channel) {
            self.dialed.push(channel)?;
            self.faults = one_more(self.faults);
            return Err(DialBad::Failed);
        }
        let (ring, other) = shared_ring(alloc)?;
        self.dialed.push(channel)?;
        let plan = match self.plans.pop() {
            Some(plan) => plan,
            None => PipePlan::plain(alloc),
        };
        Ok(ends(ring, other, plan))
    }
}
