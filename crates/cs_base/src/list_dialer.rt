ghost use Rattle.std.specs.Prelude.{◌≡◌, ◌≤◌, [], slice_get, Some, IfOk, OnOk, option_map};
ghost use Rattle.cs_base.specs.Outside.{Rose};
ghost use Rattle.cs_base.specs.Wires.{DialerSeen, IsFreshOut, IsFreshIn, dialed_after};
ghost use Rattle.cs_base.specs.WireForms.{DialerList, out_seen, in_seen, dialer_seen, planned_out, planned_in, after_dial, after_failed_dial};

use crate::dialer::{DialBad, Dialer};
use crate::items::{Items, Octets};
use crate::list_wires::{ListIn, ListOut};
use crate::mem_files::one_more;
use crate::queue::Queue;
use std::alloc::Global;
use std::marker::Model;

/// A wire in memory that is still to be dialed. Its two ends aren't joined: what one takes the other doesn't give.
#[derive(Debug, Drop)]
pub struct WirePlan {
    /// The most bytes that each send takes.
    pub takes: Items<usize>,
    /// The stream that is given.
    pub bytes: Octets,
    /// The most bytes that each receipt gives.
    pub gives: Items<usize>,
    /// Whether the stream ends after the last of these receipts.
    pub ends: bool,
}

/// A dialer in memory, for tests: it gives stated wires in order and tells what was dialed. A dial after the last of
/// them fails.
#[derive(Debug, Drop)]
pub struct ListDialer {
    plans: Queue<WirePlan>,
    dialed: Items<u32>,
    faults: u64,
}

impl Model for ListDialer {
    ghost use Rattle.cs_base.specs.WireForms.{DialerList};

    ghost Value = { DialerList };

    ghost view = { λ d. record { plans = d.plans.items; dialed = d.dialed; faults = d.faults } };
}

impl ListDialer {
    /// A dialer of these wires.
    pub fn new(alloc: Global, plans: Queue<WirePlan>) -> ListDialer
        ensures { result ≡ record { plans = plans.items; dialed = []; faults = 0 } }
    {
        ListDialer {
            plans,
            dialed: Items::new(alloc),
            faults: 0,
        }
    }
}

impl Dialer for ListDialer {
    type Out = ListOut;

    type In = ListIn;

    ghost use Rattle.cs_base.specs.WireForms.{dialer_seen};

    ghost seen = { dialer_seen };

    fn faults(&self) -> u64 {
        self.faults
    }

    /// Which dials fail, what they give and what the dialer is after them is exact, but for want of memory, which
    /// leaves it as it was.
    fn dial(&mut self, alloc: Global, channel: u32) -> Result<(ListOut, ListIn), DialBad>
        ensures out { IfOk result (λ wires. IsFreshOut (out_seen wires.0)) }
        ensures wire { IfOk result (λ wires. IsFreshIn (in_seen wires.1)) }
        ensures dialed { (dialer_seen self.new).dialed
            ≡ option_map (dialed_after result channel) (dialer_seen self.old).dialed }
        ensures never_falls { (dialer_seen self.old).faults ≤ (dialer_seen self.new).faults }
        ensures no_fault { OnOk result ((dialer_seen self.new).faults
            ≡ (dialer_seen self.old).faults) }
        ensures failed { result ≡ Err DialBad.Failed
            → Rose (dialer_seen self.old).faults (dialer_seen self.new).faults }
        ensures next_out { IfOk result (λ wires.
            option_map planned_out (slice_get self.old.plans 0) ≡ Some wires.0) }
        ensures next_in { IfOk result (λ wires.
            option_map planned_in (slice_get self.old.plans 0) ≡ Some wires.1) }
        ensures after { OnOk result (self.new ≡ after_dial self.old channel) }
        ensures none_left { result ≡ Err DialBad.Failed → self.old.plans ≡ [] }
        ensures after_failed { result ≡ Err DialBad.Failed
            → self.new ≡ after_failed_dial self.old channel }
        ensures no_memory { result ≡ Err DialBad.NoMemory → self.new ≡ self.old }
    {
        self.dialed.push(channel)?;
        match self.plans.pop() {
            Some(plan) => {
                let WirePlan {
                    takes,
                    bytes,
                    gives,
                    ends,
                } = plan;
                Ok((ListOut::new(alloc, takes), ListIn::new(bytes, gives, ends)))
            }
            None => {
                self.faults = one_more(self.faults);
                Err(DialBad::Failed)
            }
        }
    }
}
