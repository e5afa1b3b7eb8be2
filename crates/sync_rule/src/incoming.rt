ghost use Rattle.std.specs.Prelude.{◌≡◌, ◌<◌, [], ◌∷◌, ◌++◌, ◌↔◌, IsTrue, IfSome, IfNone};
ghost use Rattle.sync_rule.specs.Ports.{first_in, taken, introduction_to, waiting_of};
ghost use Rattle.sync_rule.specs.Times.{head_of, quiet_of};
ghost use Rattle.sync_rule.specs.OnePort.{HearsBy, SameFields, Judged, BarsHere};

use crate::port_plan::PortPlan;
use cs_base::no_memory::NoMemory;
use cs_base::queue::Queue;
use cs_base::time::Time;
use port_queue::RxPort;
use sb_intro::{Intro, expected};
use sb_message::{Body, Msg, is_event};
use std::alloc::Global;
use std::marker::Model;

/// The receiving half of a port.
#[derive(Drop)]
pub struct Incoming {
    plan: PortPlan,
    inbox: Queue<Msg>,
    bound: Time,
    introduced: bool,
}

impl Model for Incoming {
    ghost use Rattle.sync_rule.specs.Ports.{In};

    ghost Value = { In };

    ghost view = { λ i. record { plan = i.plan; inbox = i.inbox.items; bound = i.bound; introduced = i.introduced } };
}

/// What a try to receive found.
#[derive(Debug, Drop)]
pub enum Got {
    Nothing,
    Received,
    /// The first message, which isn't the introduction.
    Wrong(Msg),
}

impl Incoming {
    pub fn new(alloc: Global, plan: PortPlan) -> Incoming
        ensures { result ≡ first_in plan }
    {
        Incoming {
            plan,
            inbox: Queue::new(alloc),
            bound: Time(0),
            introduced: false,
        }
    }

    /// When the first message that waits is to be taken.
    pub fn head(&self) -> Option<Time>
        ensures { result ≡ head_of self.now }
    {
        match self.inbox.first() {
            None => None,
            Some(message) => Some(message.at),
        }
    }

    /// How far it has heard, where nothing waits.
    pub fn quiet(&self) -> Option<Time>
        ensures { result ≡ quiet_of self.now }
    {
        match self.inbox.first() {
            None => Some(self.bound),
            Some(_) => None,
        }
    }

    /// Whether nothing waits and it has not heard so far.
    pub fn bars(&self, needed: Time) -> bool
        ensures { IsTrue result ↔ BarsHere self.now needed }
    {
        self.inbox.is_empty() && self.bound.picoseconds() < needed.picoseconds()
    }

    /// Takes the first message that waits.
    pub fn take(&mut self) -> Option<Msg>
        ensures some { IfSome result (λ m. self.old.inbox ≡ m ∷ self.new.inbox) }
        ensures taken { IfSome result (λ _. self.new ≡ taken self.old) }
        ensures none { IfNone result (self.old.inbox ≡ []) }
    {
        self.inbox.pop()
    }

    /// Receives a message, if one is there.
    pub fn receive<R: RxPort>(&mut self, rx: &mut R) -> Result<Got, NoMemory>
        ensures { HearsBy R.pops R.empties rx.old rx.new self.old self.new result }
    {
        self.inbox.reserve(1)?;
        let Some(message) = rx.pop() else {
            return Ok(Got::Nothing);
        };
        if is_wrong(self.introduced, self.plan, &message) {
            return Ok(Got::Wrong(message));
        }
        self.bound = message.at;
        self.introduced = true;
        keep(&mut self.inbox, message);
        Ok(Got::Received)
    }
}

fn same_intro(a: &Intro, b: &Intro) -> bool
    ensures { IsTrue result ↔ SameFields a.now b.now }
{
    a.version == b.version
        && a.kind == b.kind
        && a.latency == b.latency
        && a.interval == b.interval
        && a.bar_len == b.bar_len
}

fn is_introduction(plan: PortPlan, message: &Msg) -> bool
    ensures { IsTrue result ↔ (message.now ≡ introduction_to plan) }
{
    match &message.body {
        Body::Intro(intro) => {
            let wanted = expected(plan.kind.partner(), plan.latency, plan.interval);
            message.at.picoseconds() == 0 && same_intro(intro, &wanted)
        }
        _ => false,
    }
}

/// Whether a message is the first one of a port, and not its introduction.
fn is_wrong(introduced: bool, plan: PortPlan, message: &Msg) -> bool
    ensures { Judged introduced plan message.now result }
{
    if introduced {
        return false;
    }
    !is_introduction(plan, message)
}

/// Puts a message to those that wait to be taken, if it is an event.
fn keep(inbox: &mut Queue<Msg>, message: Msg)
    requires { 0 < inbox.old.spare }
    ensures { inbox.new.items ≡ inbox.old.items ++ waiting_of message }
{
    if is_event(&message.body) {
        inbox.push_reserved(message);
    }
}
