ghost use Rattle.std.specs.Prelude.{◌≡◌, ◌<◌, ◌^◌, ◌∷◌, List, IfOk, OnOk};
ghost use Rattle.sb_message.specs.declared.message.Msg.{Msg};
ghost use Rattle.port_queue.specs.Port.{IsNextSent};
ghost use Rattle.sync_rule.specs.Ports.{IsPlanned, first_out, synced, posted, waits_of};
ghost use Rattle.sync_rule.specs.OnePort.{PassesOnBy, MayPass};

use crate::port_plan::PortPlan;
use cs_base::no_memory::NoMemory;
use cs_base::queue::Queue;
use cs_base::time::Time;
use device_api::Count;
use port_queue::{Full, TxPort};
use sb_intro::expected;
use sb_message::{Body, Msg};
use std::alloc::Global;
use std::marker::Model;

/// The sending half of a port.
#[derive(Drop)]
pub struct Outgoing {
    plan: PortPlan,
    outbox: Queue<Msg>,
    sync_due: Time,
    count: Count,
}

impl Model for Outgoing {
    ghost use Rattle.sync_rule.specs.Ports.{Out};

    ghost Value = { Out };

    ghost view = { λ o. record { plan = o.plan; outbox = o.outbox.items; sync_due = o.sync_due; count = o.count } };
}

impl Outgoing {
    pub fn new(alloc: Global, plan: PortPlan) -> Result<Outgoing, NoMemory>
        ensures { IfOk result (λ o. o ≡ first_out plan) }
    {
        let mut outbox = Queue::new(alloc);
        outbox.push(Msg {
            at: Time(0),
            body: Body::Intro(expected(plan.kind, plan.latency, plan.interval)),
        })?;
        Ok(Outgoing {
            plan,
            outbox,
            sync_due: Time(0),
            count: Count { syncs: 0, sends: 0 },
        })
    }

    /// Whether a message waits to be sent.
    pub fn waits(&self) -> bool
        ensures { result ≡ waits_of self.now.outbox }
    {
        !self.outbox.is_empty()
    }

    /// When the next null message is due.
    pub fn sync_due(&self) -> Time
        ensures { result ≡ self.now.sync_due }
    {
        self.sync_due
    }

    /// How many messages were made.
    pub fn count(&self) -> Count
        ensures { result ≡ self.now.count }
    {
        self.count
    }

    /// Makes a null message.
    pub fn sync(&mut self, u: Time) -> Result<(), NoMemory>
        requires planned { IsPlanned self.old.plan }
        requires in_run { u < 10 ^ 15 }
        ensures { OnOk result (self.new ≡ synced u self.old) }
    {
        let at = Time(u.picoseconds() + self.plan.latency.picoseconds());
        self.outbox.push(Msg {
            at,
            body: Body::Sync,
        })?;
        self.sync_due = Time(u.picoseconds() + self.plan.interval.picoseconds());
        self.count.syncs = self.count.syncs.saturating_add(1);
        Ok(())
    }

    /// Makes a message of a body.
    pub fn post(&mut self, t: Time, body: Body) -> Result<(), NoMemory>
        requires planned { IsPlanned self.old.plan }
        requires in_run { t < 10 ^ 15 }
        ensures { OnOk result (self.new ≡ posted t body self.old) }
    {
        let at = Time(t.picoseconds() + self.plan.latency.picoseconds());
        self.outbox.push(Msg { at, body })?;
        self.sync_due = Time(t.picoseconds() + self.plan.interval.picoseconds());
        self.count.sends = self.count.sends.saturating_add(1);
        Ok(())
    }

    /// Sends the first message that waits, if the channel has room.
    pub fn pass_on<T: TxPort>(&mut self, tx: &mut T) -> bool
        requires { MayPass self.old.outbox (T.kind tx.old) (T.stands tx.old) }
        ensures { PassesOnBy T.pushes T.refuses tx.old tx.new self.old self.new result }
    {
        let Some(message) = self.outbox.pop() else {
            return false;
        };
        match tx.push(message) {
            Ok(()) => true,
            Err(Full(message)) => {
                self.outbox.push_first_reserved(message);
                false
            }
        }
    }
}
