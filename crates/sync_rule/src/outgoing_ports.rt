ghost use Rattle.std.specs.Prelude.{◌≡◌, ◌≤◌, ◌<◌, ◌^◌, ◌||◌, [], map, length, ℕ, List, ◌∷◌, IfOk, OnOk, vec_capacity};
ghost use Rattle.sb_message.specs.declared.message.Msg.{Msg};
ghost use Rattle.port_queue.specs.Port.{IsNextSent};
ghost use Rattle.sync_rule.specs.Ports.{Out, first_out, synced, posted, at_place, post_all};
ghost use Rattle.sync_rule.specs.Times.{timer_of};
ghost use Rattle.sync_rule.specs.Soonest.{Soonest};
ghost use Rattle.sync_rule.specs.ManyPorts.{AtPort, outbox_in, ArePlanned, HavePorts, WaitBelow};
ghost use Rattle.sync_rule.specs.Next.{FirstWaiting};
ghost use Rattle.sync_rule.specs.OnePort.{PassesOnAt, MayPass};

use crate::outgoing::Outgoing;
use crate::port_plan::PortPlan;
use crate::sooner::sooner_at;
use crate::timer::Timer;
use cs_base::items::Items;
use cs_base::no_memory::NoMemory;
use cs_base::time::Time;
use device_api::Count;
use port_queue::TxPort;
use sb_message::Body;
use std::alloc::Global;
use std::marker::Model;

/// The sending halves of a component's ports, and the room for the list of their counts.
#[derive(Drop)]
pub struct OutgoingPorts {
    items: Vec<Outgoing>,
    counts: Vec<Count>,
}

impl Model for OutgoingPorts {
    ghost use Rattle.std.specs.Prelude.{◌≡◌, ◌≤◌, [], List, vec_len, vec_capacity};
    ghost use Rattle.sync_rule.specs.Ports.{Out};

    ghost Value = { List Out };

    ghost view = { λ ports. ports.items.items };

    ghost invariant = { λ ports. (ports.counts.items ≡ []) × (vec_len ports.items ≤ vec_capacity ports.counts) };
}

/// When a component's next null message is due, and whether a message waits to be sent.
#[derive(Clone, Copy)]
pub struct Due {
    pub timer: Option<Timer>,
    pub waits: bool,
}

impl OutgoingPorts {
    pub fn new(alloc: Global, plans: &[PortPlan]) -> Result<OutgoingPorts, NoMemory>
        ensures { IfOk result (λ ports. ports ≡ map first_out plans.now) }
    {
        let mut items = Vec::new(alloc);
        for plan in plans {
            items.push(Outgoing::new(alloc, *plan)?)?;
        }
        let counts = Vec::with_capacity(alloc, items.len())?;
        Ok(OutgoingPorts { items, counts })
    }

    /// One look at each port.
    pub fn due(&self) -> Due
        ensures timer { Soonest timer_of self.now (length self.now) result.timer }
        ensures waits { WaitBelow self.now (length self.now) result.waits }
    {
        due_at(self.items.as_slice())
    }

    /// The least port at which a message waits to be sent.
    pub fn waiting(&self) -> Option<usize>
        ensures { FirstWaiting self.now result }
    {
        waiting_at(self.items.as_slice())
    }

    /// Makes a null message for a port.
    pub fn sync(&mut self, port: usize, u: Time) -> Result<(), NoMemory>
        requires there { port < length self.old }
        requires planned { ArePlanned self.old }
        requires in_run { u < 10 ^ 15 }
        ensures { OnOk result (self.new ≡ at_place port (synced u) self.old) }
    {
        self.items[port].sync(u)
    }

    /// Makes a message of a body for a port.
    fn post(&mut self, port: usize, t: Time, body: Body) -> Result<(), NoMemory>
        requires there { port < length self.old }
        requires planned { ArePlanned self.old }
        requires in_run { t < 10 ^ 15 }
        ensures { OnOk result (self.new ≡ at_place port (posted t body) self.old) }
    {
        self.items[port].post(t, body)
    }

    /// Makes a message of each body that is sent at a time, for the port by which it is sent.
    pub fn post_all(&mut self, t: Time, sends: &mut Items<(u32, Body)>) -> Result<(), NoMemory>
        requires there { HavePorts (length self.old) sends.old }
        requires planned { ArePlanned self.old }
        requires in_run { t < 10 ^ 15 }
        ensures posted { OnOk result (self.new ≡ post_all t sends.old self.old) }
        ensures emptied { OnOk result (sends.new ≡ []) }
    {
        sends.reverse();
        'sends: while let Some((port, body)) = sends.pop() {
            self.post(port as usize, t, body)?;
        }
        Ok(())
    }

    /// Sends the first message that waits at a port, if the channel has room.
    pub fn pass_on<T: TxPort>(&mut self, port: usize, tx: &mut T) -> bool
        requires there { port < length self.old }
        requires next { MayPass (outbox_in self.old port) (T.kind tx.old) (T.stands tx.old) }
        ensures { PassesOnAt T.pushes T.refuses tx.old tx.new self.old self.new port result }
    {
        self.items[port].pass_on(tx)
    }

    /// The counts of all ports.
    pub fn into_counts(self) -> Items<Count>
        ensures { result ≡ map (λ (o : Out). o.count) self }
    {
        let OutgoingPorts { items, mut counts } = self;
        count_all(items.as_slice(), &mut counts);
        Items::from_vec(counts)
    }
}

fn due_at(items: &[Outgoing]) -> Due
    ensures timer { Soonest timer_of items.now (length items.now) result.timer }
    ensures waits { WaitBelow items.now (length items.now) result.waits }
{
    let mut timer = None;
    let mut waits = false;
    for (port, outgoing) in items.iter().enumerate() {
        timer = sooner_at(timer, port, Some(outgoing.sync_due()));
        waits = waits_too(waits, outgoing.waits());
    }
    Due { timer, waits }
}

fn waiting_at(items: &[Outgoing]) -> Option<usize>
    ensures { FirstWaiting items.now result }
{
    for (port, outgoing) in items.iter().enumerate() {
        if outgoing.waits() {
            return Some(port);
        }
    }
    None
}

fn waits_too(before: bool, here: bool) -> bool
    ensures { result ≡ before || here }
{
    before || here
}

/// Adds the counts of all ports to a list that has room for them.
fn count_all(items: &[Outgoing], counts: &mut Vec<Count>)
    requires empty { counts.old.items ≡ [] }
    requires room { length items.now ≤ vec_capacity counts.old }
    ensures { counts.new.items ≡ map (λ (o : Out). o.count) items.now }
{
    for outgoing in items {
        counts.push_reserved(outgoing.count());
    }
}
