ghost use Rattle.std.specs.Prelude.{◌≡◌, ◌≤◌, ◌<◌, ◌^◌, ◌↔◌, [], ℕ, false, All, map, length, IsTrue, IfOk, OnOk, MatchOption};

use crate::choose::chosen;
use crate::front::{Front, calm_until, due_before};
use crate::incoming::Got;
use crate::incoming_ports::IncomingPorts;
use crate::next::Next;
use crate::outgoing_ports::OutgoingPorts;
use crate::port_plan::PortPlan;
use crate::run_bad::RunBad;
use cs_base::items::Items;
use cs_base::no_memory::NoMemory;
use cs_base::time::Time;
use device_api::{Count, Device, Effects, Line, log_all};
use port_queue::{RxPort, TxPort};
use std::alloc::Global;

/// A component that knows nothing of others but what its channels carry: its device, its log, and its ports.
/// After `NoMemory` of `event` or `poll` and after a wrong introduction it is spent: nothing is told of it.
#[derive(Drop)]
pub struct Runner<V> {
    device: V,
    log: Items<Line>,
    incoming: IncomingPorts,
    outgoing: OutgoingPorts,
    end: Time,
    done: Effects,
}

impl<V: Device> Runner<V> {
    ghost use Rattle.sync_rule.specs.Ports.{IsPlanned, Out};
    ghost use Rattle.sync_rule.specs.ManyPorts.{ArePlanned, HavePorts};
    ghost use Rattle.sync_rule.specs.declared.next.Next.TheVariants.{Take, Tick};
    ghost use Rattle.sync_rule.specs.declared.port_plan.PortPlan.{PortPlan};
    ghost use Rattle.sync_rule.specs.Next.{IsEnabled, HasEnded, BarredBy, FirstWaiting, IsReady};
    ghost use Rattle.sync_rule.specs.Fronts.{IsFront};
    ghost use Rattle.sync_rule.specs.Events.{IsReadyThroughout, RanUpTo, RanOn, IsCalm, TicksSilently};
    ghost use Rattle.sync_rule.specs.Steps.{started, after_done, IsAfter, IsAfterTake, after_tick, Processes, MaySendNext, SendsBy, PollsBy};

    /// A component at its start. Its ports are those of its device, in order, and it processes what is before `end`,
    /// which is at least 1 and at most 10^15 picoseconds. The introduction of each port waits to be sent.
    pub fn new(
        alloc: Global,
        device: V,
        ports: Vec<PortPlan>,
        end: Time,
    ) -> Result<Runner<V>, NoMemory>
        requires at_start { V.settled device 0 }
        requires ports { map (λ (plan : PortPlan). plan.kind) ports.items ≡ V.behaviour.ports device }
        requires planned { All IsPlanned ports.items }
        requires in_run { (1 ≤ end) × (end ≤ 10 ^ 15) }
        ensures { IfOk result (λ runner. runner ≡ started device ports.items end) }
    {
        let incoming = IncomingPorts::new(alloc, ports.as_slice())?;
        let outgoing = OutgoingPorts::new(alloc, ports.as_slice())?;
        Ok(Runner {
            device,
            log: Items::new(alloc),
            incoming,
            outgoing,
            end,
            done: Effects::new(alloc),
        })
    }

    /// One look at each port and at the device.
    fn front(&self) -> Front
        ensures front { IsFront V.behaviour self.now result }
        ensures calm { IsCalm self.now.incoming self.now.outgoing self.now.end result.calm }
    {
        let due = self.outgoing.due();
        let heard = self.incoming.heard();
        Front {
            next: chosen(due.timer, heard.head, self.device.due()),
            quiet: heard.quiet,
            waits: due.waits,
            calm: calm_until(due.timer, heard.head, heard.quiet, self.end),
        }
    }

    /// Processes the next event, if that may be: it is before the end, nothing waits to be sent, and no message can
    /// still come in before it. False exactly where none may be processed, and then nothing changed.
    pub fn event(&mut self, alloc: Global) -> Result<bool, NoMemory>
        requires ready { IsReady V.behaviour V.settled self.old }
        ensures { IfOk result (Processes V.behaviour self.old self.new) }
    {
        let Some(next) = self.front().enabled(self.end) else {
            return Ok(false);
        };
        self.process(alloc, next)?;
        Ok(true)
    }

    /// Processes events in a row, `most` at most, and tells how many: fewer only where the next may not be processed.
    pub fn events(&mut self, alloc: Global, most: u64) -> Result<u64, NoMemory>
        requires ready { IsReadyThroughout V.behaviour V.settled self.old }
        ensures { IfOk result (RanUpTo V.behaviour self.old self.new most) }
    {
        let mut ran = 0;
        'events: while ran < most {
            let front = self.front();
            let Some(next) = front.enabled(self.end) else {
                return Ok(ran);
            };
            ran += self.go_on(alloc, next, front.calm, most - ran)?;
        }
        Ok(ran)
    }

    /// Processes the next event, and where that is a tick those ticks too that follow with nothing between them.
    fn go_on(&mut self, alloc: Global, next: Next, calm: Time, most: u64) -> Result<u64, NoMemory>
        requires ready { IsReadyThroughout V.behaviour V.settled self.old }
        requires enabled { IsEnabled V.behaviour self.old next }
        requires calm { IsCalm self.old.incoming self.old.outgoing self.old.end calm }
        requires some { 0 < most }
        ensures { IfOk result (RanOn V.behaviour self.old self.new most) }
    {
        match next {
            Next::Tick { at } => self.run_on(alloc, at, calm, most),
            Next::Sync { .. } | Next::Take { .. } => self.process_one(alloc, next),
        }
    }

    fn process_one(&mut self, alloc: Global, next: Next) -> Result<u64, NoMemory>
        requires ready { IsReadyThroughout V.behaviour V.settled self.old }
        requires enabled { IsEnabled V.behaviour self.old next }
        ensures { IfOk result (RanOn V.behaviour self.old self.new 1) }
    {
        self.process(alloc, next)?;
        Ok(1)
    }

    /// Runs on from tick to tick with no look at the ports, up to the first tick that sends.
    fn run_on(&mut self, alloc: Global, first: Time, calm: Time, most: u64) -> Result<u64, NoMemory>
        requires ready { IsReadyThroughout V.behaviour V.settled self.old }
        requires enabled { IsEnabled V.behaviour self.old (Tick first) }
        requires calm { IsCalm self.old.incoming self.old.outgoing self.old.end calm }
        requires some { 0 < most }
        ensures { IfOk result (RanOn V.behaviour self.old self.new most) }
    {
        let mut at = first;
        let mut ran = 0;
        'ticks: while ran < most {
            let sent = self.tick(alloc, at)?;
            ran += 1;
            if sent {
                return Ok(ran);
            }
            let Some(due) = due_before(self.device.due(), calm) else {
                return Ok(ran);
            };
            at = due;
        }
        Ok(ran)
    }

    fn process(&mut self, alloc: Global, next: Next) -> Result<(), NoMemory>
        requires ready { IsReady V.behaviour V.settled self.old }
        requires enabled { IsEnabled V.behaviour self.old next }
        ensures { OnOk result (IsAfter V.behaviour self.old next self.new) }
    {
        match next {
            Next::Sync { port, at } => self.outgoing.sync(port, at),
            Next::Take { port, at } => self.take(alloc, port, at),
            Next::Tick { at } => {
                self.tick(alloc, at)?;
                Ok(())
            }
        }
    }

    fn take(&mut self, alloc: Global, port: usize, at: Time) -> Result<(), NoMemory>
        requires ready { IsReady V.behaviour V.settled self.old }
        requires enabled { IsEnabled V.behaviour self.old (Take port at) }
        ensures { OnOk result (IsAfterTake V.behaviour self.old self.new port at) }
    {
        let Some(message) = self.incoming.take_first(port) else {
            return Ok(());
        };
        self.device
            .take(alloc, at, port as u32, message.body, &mut self.done)?;
        self.carry_out(at)
    }

    /// Tells whether the device sent anything.
    #[inline(always)]
    fn tick(&mut self, alloc: Global, at: Time) -> Result<bool, NoMemory>
        requires ready { IsReady V.behaviour V.settled self.old }
        requires enabled { IsEnabled V.behaviour self.old (Tick at) }
        ensures after { OnOk result (self.new ≡ after_tick V.behaviour self.old at) }
        ensures silent { IfOk result (λ sent. sent ≡ false → TicksSilently V.behaviour self.old at) }
    {
        self.device.tick(alloc, at, &mut self.done)?;
        let sent = !self.done.sends.is_empty();
        self.carry_out(at)?;
        Ok(sent)
    }

    /// Logs what the device logged, and makes messages of what it sent.
    #[inline(always)]
    fn carry_out(&mut self, at: Time) -> Result<(), NoMemory>
        requires there { HavePorts (length self.old.outgoing) self.old.done.sends }
        requires planned { ArePlanned self.old.outgoing }
        requires in_run { at < 10 ^ 15 }
        ensures { OnOk result (self.new ≡ after_done self.old at) }
    {
        if self.done.lines.is_empty() && self.done.sends.is_empty() {
            return Ok(());
        }
        log_all(at, &mut self.done.lines, &mut self.log)?;
        self.outgoing.post_all(at, &mut self.done.sends)
    }

    /// Sends the first message that waits at a port. False exactly where none waits or the channel is full, and then
    /// nothing changed. It takes no memory.
    pub fn send<T: TxPort>(&mut self, port: u32, tx: &mut T) -> bool
        requires there { port < length self.old.outgoing }
        requires next { MaySendNext self.old port (T.kind tx.old) (T.stands tx.old) }
        ensures { SendsBy T.pushes T.refuses tx.old tx.new self.old self.new port result }
    {
        self.outgoing.pass_on(port as usize, tx)
    }

    /// Receives a message at a port, if one is there. The first must be the introduction that the port's link asks for.
    pub fn poll<R: RxPort>(&mut self, port: u32, rx: &mut R) -> Result<bool, RunBad>
        requires there { port < length self.old.incoming }
        ensures { PollsBy R.pops R.empties rx.old rx.new self.old self.new port result }
    {
        match self.incoming.receive(port as usize, rx) {
            Err(_) => Err(RunBad::NoMemory),
            Ok(Got::Nothing) => Ok(false),
            Ok(Got::Received) => Ok(true),
            Ok(Got::Wrong(found)) => Err(RunBad::WrongIntro { port, found }),
        }
    }

    /// What the component has logged so far.
    pub fn log(&self) -> &[Line]
        ensures { result.now ≡ self.now.log }
    {
        self.log.as_slice()
    }

    /// Whether the component has ended: nothing is left for it before the end, no message can still come in before it,
    /// and nothing waits to be sent.
    pub fn ended(&self) -> bool
        ensures { IsTrue result ↔ HasEnded V.behaviour self.now }
    {
        self.front().ended(self.end)
    }

    /// The least port that has not heard far enough, for the next event or, where none is before the end, to have
    /// ended.
    pub fn barred(&self) -> Option<u32>
        requires few { length self.now.incoming ≤ 32 }
        ensures { BarredBy V.behaviour self.now result }
    {
        let needed = self.front().needed(self.end);
        match self.incoming.barred(needed) {
            None => None,
            Some(port) => Some(port as u32),
        }
    }

    /// The least port at which a message waits to be sent.
    pub fn waiting(&self) -> Option<u32>
        requires few { length self.now.outgoing ≤ 32 }
        ensures { FirstWaiting self.now.outgoing result }
    {
        match self.outgoing.waiting() {
            None => None,
            Some(port) => Some(port as u32),
        }
    }

    /// The device, the log, and how many null messages and events were made for each port. It takes no memory.
    pub fn finish(self) -> (V, Items<Line>, Items<Count>)
        ensures device { result.0 ≡ self.device }
        ensures log { result.1 ≡ self.log }
        ensures counts { result.2 ≡ map (λ (o : Out). o.count) self.outgoing }
    {
        let Runner {
            device,
            log,
            outgoing,
            ..
        } = self;
        (device, log, outgoing.into_counts())
    }
}
