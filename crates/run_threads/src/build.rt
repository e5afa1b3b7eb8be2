//! The parts of all components, on their workers.
ghost use Rattle.std.specs.Prelude.{◌≡◌, ◌≤◌, ◌<◌, ◌+◌, [], length, map, All, IfOk};
ghost use Rattle.cs_base.specs.declared.link.Link.{Link};
ghost use Rattle.cs_base.specs.declared.port_kind.Via.TheVariants.{Queue as ByQueue};
ghost use Rattle.mesh_core.specs.Start.{first_runners, queues_of};
ghost use Rattle.proxy_crew.specs.Dialing.{DialTells, channel_of};
ghost use Rattle.run_threads.specs.Building.{IsPlaced, IsNewCrew, starts_of};
ghost use Rattle.run_threads.specs.CrewOf.{IsCrewOf};
ghost use Rattle.run_threads.specs.Dealing.{AreDealt, AreNumbered};
ghost use Rattle.run_threads.specs.Numbers.{HaveNumbers};
ghost use Rattle.run_threads.specs.Queues.{AreNew, as_empty, names_of, its_sender, its_receiver};
ghost use Rattle.run_threads.specs.Proxied.{AreAllNew, near_queues, far_queues, near_names, far_names, proxied};
ghost use Rattle.run_threads.specs.Sharing.{AreBetween};
ghost use Rattle.run_threads.specs.Ready.{IsReady, MayDial, Builds};
ghost use Rattle.run_threads.specs.Whole.{IsBuilt};
ghost use Rattle.run_threads.specs.Stock.{HaveSides, froms_of, tos_of};

use crate::closing::Closing;
use crate::crew::Crew;
use crate::dealing::{deal, idle_workers};
use crate::part::Part;
use crate::routes::routes_of;
use crate::sharing::{Shares, share_out};
use crate::stock::Stock;
use cs_base::dialer::Dialer;
use cs_base::items::Items;
use cs_base::no_memory::NoMemory;
use cs_base::wires::{WireIn, WireOut};
use cs_base::wiring::Wiring;
use device_api::Device;
use mesh_core::build::runners_of;
use proxy_crew::{BuildBad, Dismissed, Route, dial_all, engage};
use slot_queue::{Consumer, Producer, RxEnd, SlotQueue, TxEnd};
use std::alloc::Global;
use sync_rule::Runner;
use worker_rounds::Worker;

/// Makes the part of a component with so many ports, and deals it to its worker.
fn place<'q, V: Device>(
    alloc: Global,
    nears: &[&'q SlotQueue],
    fars: &[&'q SlotQueue],
    stock: &mut Stock,
    workers: &mut [Worker<Part<'q, V>>],
    component: u32,
    ports: u32,
    runner: Runner<V>,
) -> Result<(), NoMemory>
    requires froms { HaveNumbers stock.old.froms.items component ports }
    requires tos { HaveNumbers stock.old.tos.items component ports }
    requires few { (length stock.old.froms.items ≤ 2048) × (length stock.old.tos.items ≤ 2048) }
    requires senders { HaveSides its_sender (map (λ queue. queue.now) nears.now)
        stock.old.froms.items stock.old.senders.items component }
    requires receivers { HaveSides its_receiver (map (λ queue. queue.now) fars.now)
        stock.old.tos.items stock.old.receivers.items component }
    requires some_worker { 0 < length workers.old }
    ensures placed { IfOk result (λ _. IsPlaced (map (λ queue. queue.now) nears.now)
        (map (λ queue. queue.now) fars.now)
        stock.old.froms.items stock.old.tos.items component ports runner workers.old workers.new) }
    ensures numbered { IfOk result (λ _. AreNumbered workers.old → AreNumbered workers.new) }
    ensures froms { stock.new.froms ≡ stock.old.froms }
    ensures tos { stock.new.tos ≡ stock.old.tos }
    ensures senders { IfOk result (λ _. HaveSides its_sender (map (λ queue. queue.now) nears.now)
        stock.old.froms.items stock.new.senders.items (component + 1)) }
    ensures receivers { IfOk result (λ _. HaveSides its_receiver (map (λ queue. queue.now) fars.now)
        stock.old.tos.items stock.new.receivers.items (component + 1)) }
{
    let part = stock.part(alloc, nears, fars, component, ports, runner)?;
    deal(workers, component as usize, part)?;
    Ok(())
}

/// Makes the parts of all components, and deals them to workers without members.
pub(crate) fn deal_all<'q, V: Device>(
    alloc: Global,
    nears: &[&'q SlotQueue],
    fars: &[&'q SlotQueue],
    wiring: &Wiring,
    stock: &mut Stock,
    workers: &mut [Worker<Part<'q, V>>],
    runners: Vec<Runner<V>>,
) -> Result<(), NoMemory>
    requires first { runners.items ≡ first_runners V.behaviour
        wiring.now.links wiring.now.end (starts_of runners.items) }
    requires matches { map V.behaviour.ports (starts_of runners.items) ≡ wiring.now.kinds }
    requires at_start { All (λ device. V.settled device 0) (starts_of runners.items) }
    requires nears { map as_empty (map (λ queue. queue.now) nears.now)
        ≡ queues_of wiring.now.kinds wiring.now.links }
    requires fars { map as_empty (map (λ queue. queue.now) fars.now)
        ≡ queues_of wiring.now.kinds wiring.now.links }
    requires froms { stock.old.froms.items ≡ froms_of wiring.now.links }
    requires tos { stock.old.tos.items ≡ tos_of wiring.now.links }
    requires senders { HaveSides its_sender (map (λ queue. queue.now) nears.now)
        stock.old.froms.items stock.old.senders.items 0 }
    requires receivers { HaveSides its_receiver (map (λ queue. queue.now) fars.now)
        stock.old.tos.items stock.old.receivers.items 0 }
    requires workers { AreDealt workers.old [] }
    ensures numbered { IfOk result (λ _. AreNumbered workers.old → AreNumbered workers.new) }
    ensures crew { IfOk result (λ _. IsCrewOf V.behaviour V.settled (starts_of runners.items)
        wiring.now.links wiring.now.end (names_of (map (λ queue. queue.now) nears.now))
        (names_of (map (λ queue. queue.now) fars.now)) workers.new) }
    ensures fresh { IfOk result (λ _. IsNewCrew V.behaviour (starts_of runners.items)
        wiring.now.links wiring.now.end (map (λ queue. queue.now) nears.now)
        (map (λ queue. queue.now) fars.now) workers.new) }
{
    let mut left = Items::from_vec(runners);
    left.reverse();
    let mut component = 0;
    'runners: while let Some(runner) = left.pop() {
        let ports = wiring.kinds.as_slice()[component as usize].len() as u32;
        place(alloc, nears, fars, stock, workers, component, ports, runner)?;
        component += 1;
    }
    Ok(())
}

/// The workers of devices at their start, with the near and the far queues of the channels, and the sides that the channels'
/// senders and receivers have of them.
fn workers_of<'q, V: Device>(
    alloc: Global,
    nears: &[&'q SlotQueue],
    fars: &[&'q SlotQueue],
    senders: Vec<Producer>,
    receivers: Vec<Consumer>,
    devices: Vec<V>,
    wiring: &Wiring,
    workers: u32,
) -> Result<Vec<Worker<Part<'q, V>>>, NoMemory>
    requires nears { map as_empty (map (λ queue. queue.now) nears.now)
        ≡ queues_of wiring.now.kinds wiring.now.links }
    requires fars { map as_empty (map (λ queue. queue.now) fars.now)
        ≡ queues_of wiring.now.kinds wiring.now.links }
    requires senders { senders.items ≡ map its_sender (map (λ queue. queue.now) nears.now) }
    requires receivers { receivers.items ≡ map its_receiver (map (λ queue. queue.now) fars.now) }
    requires matches { map V.behaviour.ports devices.items ≡ wiring.now.kinds }
    requires at_start { All (λ device. V.settled device 0) devices.items }
    requires some_worker { 1 ≤ workers }
    ensures crew { IfOk result (λ made. IsCrewOf V.behaviour V.settled devices.items
        wiring.now.links wiring.now.end (names_of (map (λ queue. queue.now) nears.now))
        (names_of (map (λ queue. queue.now) fars.now)) made.items) }
    ensures fresh { IfOk result (λ made. IsNewCrew V.behaviour devices.items
        wiring.now.links wiring.now.end (map (λ queue. queue.now) nears.now)
        (map (λ queue. queue.now) fars.now) made.items) }
    ensures as_many { IfOk result (λ made. length made.items ≡ workers) }
    ensures numbered { IfOk result (λ made. AreNumbered made.items) }
{
    let kinds = wiring.kinds.as_slice();
    let links = wiring.links.as_slice();
    let mut stock = Stock::new(alloc, links, senders, receivers)?;
    let mut made = idle_workers(alloc, workers)?;
    let runners = runners_of(alloc, devices, kinds, links, wiring.end)?;
    deal_all(
        alloc,
        nears,
        fars,
        wiring,
        &mut stock,
        made.as_mut_slice(),
        runners,
    )?;
    Ok(made)
}

/// The workers of devices at their start, and what stands between the near and the far queues of the channels by proxy, in
/// the order of the channels: the ends out of the near ones, and those into the far ones.
#[derive(Drop)]
pub(crate) struct Staffed<'q, V> {
    pub(crate) workers: Vec<Worker<Part<'q, V>>>,
    pub(crate) outs: Vec<RxEnd<'q>>,
    pub(crate) ins: Vec<TxEnd<'q>>,
}

/// The workers of devices at their start that are joined by the queues of a wiring, of which links may go by proxy.
pub(crate) fn staff<'q, V: Device>(
    alloc: Global,
    queues: &'q [SlotQueue],
    producers: Vec<Producer>,
    consumers: Vec<Consumer>,
    devices: Vec<V>,
    wiring: &Wiring,
    workers: u32,
) -> Result<Staffed<'q, V>, NoMemory>
    requires new { AreAllNew wiring.now.kinds wiring.now.links
        queues.now producers.items consumers.items }
    requires matches { map V.behaviour.ports devices.items ≡ wiring.now.kinds }
    requires at_start { All (λ device. V.settled device 0) devices.items }
    requires some_worker { 1 ≤ workers }
    ensures crew { IfOk result (λ made. IsCrewOf V.behaviour V.settled devices.items
        wiring.now.links wiring.now.end (near_names wiring.now.links queues.now)
        (far_names wiring.now.links queues.now) made.workers.items) }
    ensures fresh { IfOk result (λ made. IsNewCrew V.behaviour devices.items
        wiring.now.links wiring.now.end (near_queues wiring.now.links queues.now)
        (far_queues wiring.now.links queues.now) made.workers.items) }
    ensures between { IfOk result (λ made. AreBetween wiring.now.links queues.now
        made.outs.items made.ins.items) }
    ensures as_many { IfOk result (λ made. length made.workers.items ≡ workers) }
    ensures numbered { IfOk result (λ made. AreNumbered made.workers.items) }
{
    let Shares {
        nears,
        senders,
        fars,
        receivers,
        outs,
        ins,
    } = share_out(alloc, queues, producers, consumers, wiring.links.as_slice())?;
    let workers = workers_of(
        alloc,
        nears.as_slice(),
        fars.as_slice(),
        senders,
        receivers,
        devices,
        wiring,
        workers,
    )?;
    Ok(Staffed { workers, outs, ins })
}

/// A crew for which all is made but the ends of the channels by proxy.
#[derive(Drop)]
struct Ready<'q, V, O, I> {
    staffed: Staffed<'q, V>,
    routes: Vec<Route>,
    dismissed: Dismissed<O, I>,
    closing: Closing<'q, V>,
}

impl<'q, V: Device, O: WireOut + Drop, I: WireIn + Drop> Ready<'q, V, O, I> {
    /// All that needs no dial.
    fn new(
        alloc: Global,
        queues: &'q [SlotQueue],
        producers: Vec<Producer>,
        consumers: Vec<Consumer>,
        devices: Vec<V>,
        wiring: &Wiring,
        workers: u32,
    ) -> Result<Ready<'q, V, O, I>, NoMemory>
        requires new { AreAllNew wiring.now.kinds wiring.now.links
            queues.now producers.items consumers.items }
        requires matches { map V.behaviour.ports devices.items ≡ wiring.now.kinds }
        requires at_start { All (λ device. V.settled device 0) devices.items }
        requires some_worker { 1 ≤ workers }
        ensures ready { IfOk result (IsReady V.behaviour V.settled devices.items
            wiring.now.kinds wiring.now.links wiring.now.end queues.now) }
        ensures as_many { IfOk result (λ made. length made.staffed.workers.items ≡ workers) }
    {
        let closing = Closing::new(alloc, wiring)?;
        let routes = routes_of(alloc, wiring.kinds.as_slice(), wiring.links.as_slice())?;
        let dismissed = Dismissed::reserve(alloc, routes.len())?;
        let staffed = staff(
            alloc, queues, producers, consumers, devices, wiring, workers,
        )?;
        Ok(Ready {
            staffed,
            routes,
            dismissed,
            closing,
        })
    }

    /// The crew, once each channel by proxy is dialed.
    fn dial<D: Dialer<Out = O, In = I>>(
        self,
        alloc: Global,
        dial: &mut D,
    ) -> Result<Crew<'q, V, O, I>, BuildBad>
        requires ready { MayDial V.behaviour V.settled self }
        requires few { length self.staffed.workers.items ≤ 64 }
        ensures built { IfOk result (Builds V.behaviour V.settled O.seen I.seen self.entry) }
        ensures as_many { IfOk result (λ crew.
            length crew.workers.items ≡ length self.entry.staffed.workers.items) }
        ensures told { DialTells result (map channel_of self.entry.routes.items)
            (D.seen dial.old) (D.seen dial.new) }
    {
        let Ready {
            staffed,
            routes,
            dismissed,
            closing,
        } = self;
        let Staffed { workers, outs, ins } = staffed;
        let proxied = dial_all(alloc, routes.as_slice(), outs, ins, dial)?;
        let workers = engage(alloc, workers, proxied)?;
        Ok(Crew {
            workers,
            routes: Items::from_vec(routes),
            dismissed,
            closing,
        })
    }
}

impl<'q, V: Device, O: WireOut + Drop, I: WireIn + Drop> Crew<'q, V, O, I> {
    /// The crew of devices at their start that are joined by a wiring: their components go to workers by number modulo the
    /// number of workers, of which there are 1 to 64, and some may have none. The queues are those of `Queues::build`
    /// for this wiring. Each channel that goes by proxy is dialed once, in order; its sending end goes to the worker of its
    /// sender, and its receiving end to that of its receiver. `Lost` comes only where the dialer's count of faults rose, and
    /// names the channel that was dialed last.
    pub fn build<D: Dialer<Out = O, In = I>>(
        alloc: Global,
        queues: &'q [SlotQueue],
        producers: Vec<Producer>,
        consumers: Vec<Consumer>,
        devices: Vec<V>,
        wiring: &Wiring,
        workers: u32,
        dial: &mut D,
    ) -> Result<Crew<'q, V, O, I>, BuildBad>
        requires new { AreAllNew wiring.now.kinds wiring.now.links
            queues.now producers.items consumers.items }
        requires matches { map V.behaviour.ports devices.items ≡ wiring.now.kinds }
        requires at_start { All (λ device. V.settled device 0) devices.items }
        requires workers { (1 ≤ workers) × (workers ≤ 64) }
        ensures built { IfOk result (λ crew. IsBuilt V.behaviour V.settled O.seen I.seen
            devices.items wiring.now.kinds wiring.now.links wiring.now.end queues.now crew) }
        ensures as_many { IfOk result (λ crew. length crew.workers.items ≡ workers) }
        ensures told { DialTells result (proxied wiring.now.links)
            (D.seen dial.old) (D.seen dial.new) }
    {
        let ready = Ready::new(
            alloc, queues, producers, consumers, devices, wiring, workers,
        )?;
        ready.dial(alloc, dial)
    }
}
