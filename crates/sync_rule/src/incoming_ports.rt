ghost use Rattle.std.specs.Prelude.{◌≡◌, ◌<◌, map, length, slice_get, Some, IfOk, IfSome, ◌↔◌, IsTrue, MatchOption, ℕ};
ghost use Rattle.sync_rule.specs.Ports.{first_in};
ghost use Rattle.sync_rule.specs.Times.{head_of, quiet_of};
ghost use Rattle.sync_rule.specs.Soonest.{Soonest};
ghost use Rattle.sync_rule.specs.ManyPorts.{TakesAt, LeastBar};
ghost use Rattle.sync_rule.specs.OnePort.{HearsAt};

use crate::incoming::{Got, Incoming};
use crate::port_plan::PortPlan;
use crate::sooner::sooner_at;
use crate::timer::Timer;
use cs_base::no_memory::NoMemory;
use cs_base::time::Time;
use port_queue::RxPort;
use sb_message::Msg;
use std::alloc::Global;
use std::marker::Model;

/// The receiving halves of a component's ports.
#[derive(Drop)]
pub struct IncomingPorts {
    items: Vec<Incoming>,
}

impl Model for IncomingPorts {
    ghost use Rattle.std.specs.Prelude.{List};
    ghost use Rattle.sync_rule.specs.Ports.{In};

    ghost Value = { List In };

    ghost view = { λ ports. ports.items.items };
}

/// What waits at a component's ports, and how far those have heard where nothing waits.
#[derive(Clone, Copy)]
pub struct Heard {
    /// The soonest first message.
    pub head: Option<Timer>,
    /// The least bound.
    pub quiet: Option<Timer>,
}

impl IncomingPorts {
    pub fn new(alloc: Global, plans: &[PortPlan]) -> Result<IncomingPorts, NoMemory>
        ensures { IfOk result (λ ports. ports ≡ map first_in plans.now) }
    {
        let mut items = Vec::new(alloc);
        for plan in plans {
            items.push(Incoming::new(alloc, *plan))?;
        }
        Ok(IncomingPorts { items })
    }

    pub fn len(&self) -> usize
        ensures { result ≡ length self.now }
    {
        self.items.len()
    }

    /// One look at each port.
    pub fn heard(&self) -> Heard
        ensures head { Soonest head_of self.now (length self.now) result.head }
        ensures quiet { Soonest quiet_of self.now (length self.now) result.quiet }
    {
        heard_at(self.items.as_slice())
    }

    /// The least port where nothing waits and that has not heard so far.
    pub fn barred(&self, needed: Time) -> Option<usize>
        ensures { LeastBar self.now needed result }
    {
        barred_at(self.items.as_slice(), needed)
    }

    /// Takes the first message that waits at a port.
    pub fn take_first(&mut self, port: usize) -> Option<Msg>
        requires { port < length self.old }
        ensures { TakesAt self.old self.new port result }
    {
        self.items[port].take()
    }

    /// Receives a message at a port, if one is there.
    pub fn receive<R: RxPort>(&mut self, port: usize, rx: &mut R) -> Result<Got, NoMemory>
        requires { port < length self.old }
        ensures { HearsAt R.pops R.empties rx.old rx.new self.old self.new port result }
    {
        self.items[port].receive(rx)
    }
}

fn heard_at(items: &[Incoming]) -> Heard
    ensures head { Soonest head_of items.now (length items.now) result.head }
    ensures quiet { Soonest quiet_of items.now (length items.now) result.quiet }
{
    let mut head = None;
    let mut quiet = None;
    for (port, incoming) in items.iter().enumerate() {
        head = sooner_at(head, port, incoming.head());
        quiet = sooner_at(quiet, port, incoming.quiet());
    }
    Heard { head, quiet }
}

fn barred_at(items: &[Incoming], needed: Time) -> Option<usize>
    ensures { LeastBar items.now needed result }
{
    for (port, incoming) in items.iter().enumerate() {
        if incoming.bars(needed) {
            return Some(port);
        }
    }
    None
}
