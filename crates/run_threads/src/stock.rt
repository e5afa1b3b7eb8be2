//! What the parts of a crew are made from.
ghost use Rattle.std.specs.Prelude.{◌≡◌, ◌≤◌, ◌+◌, length, map, Some, IfOk};
ghost use Rattle.mesh_core.specs.declared.way.Way.{Way as Leads};
ghost use Rattle.slot_queue.specs.declared.ends.TxEnd.{TxEnd as Tx};
ghost use Rattle.slot_queue.specs.declared.ends.RxEnd.{RxEnd as Rx};
ghost use Rattle.run_threads.specs.Numbers.{HaveNumbers, AreNumbers};
ghost use Rattle.run_threads.specs.Queues.{its_sender, its_receiver};
ghost use Rattle.run_threads.specs.Stock.{HaveSides, AreFresh, IsNewPart, froms_of, tos_of};

use crate::ends::{rx_ends, tx_ends};
use crate::numbers::numbers_of;
use crate::part::Part;
use crate::seats::{loosen, take_at};
use cs_base::items::Items;
use cs_base::link::Link;
use cs_base::no_memory::NoMemory;
use device_api::Device;
use mesh_core::build::ways_of;
use mesh_core::way::{Seat, Way};
use slot_queue::{Consumer, Producer, RxEnd, SlotQueue, TxEnd};
use std::alloc::Global;
use sync_drive::Driver;
use sync_rule::Runner;

/// Ends of channels, by port, and the numbers of these channels.
#[derive(Drop)]
pub(crate) struct Numbered<E> {
    pub(crate) numbers: Vec<u32>,
    pub(crate) ends: Vec<E>,
}

/// The sending ends of the channels out of the first so many ports of a component. Their sides are taken out of the slots.
fn take_txs<'q>(
    alloc: Global,
    queues: &[&'q SlotQueue],
    seats: &[Seat],
    slots: &mut [Option<Producer>],
    component: u32,
    ports: u32,
) -> Result<Numbered<TxEnd<'q>>, NoMemory>
    requires some { HaveNumbers seats.now component ports }
    requires few { length seats.now ≤ 2048 }
    requires there { HaveSides its_sender (map (λ queue. queue.now) queues.now)
        seats.now slots.old component }
    ensures numbers { IfOk result (λ made.
        AreNumbers seats.now component ports made.numbers.items) }
    ensures fresh { IfOk result (λ made. AreFresh (λ (end : Tx). end.seat) its_sender
        (map (λ queue. queue.now) queues.now) made.numbers.items made.ends.items) }
    ensures left { IfOk result (λ _.
        HaveSides its_sender (map (λ queue. queue.now) queues.now)
        seats.now slots.new (component + 1)) }
{
    let numbers = numbers_of(alloc, seats, component, ports)?;
    let places = numbers.as_slice();
    let sides = take_at(alloc, slots, places)?;
    let ends = tx_ends(alloc, queues, places, sides)?;
    Ok(Numbered { numbers, ends })
}

/// The receiving ends of the channels into them, likewise.
fn take_rxs<'q>(
    alloc: Global,
    queues: &[&'q SlotQueue],
    seats: &[Seat],
    slots: &mut [Option<Consumer>],
    component: u32,
    ports: u32,
) -> Result<Numbered<RxEnd<'q>>, NoMemory>
    requires some { HaveNumbers seats.now component ports }
    requires few { length seats.now ≤ 2048 }
    requires there { HaveSides its_receiver (map (λ queue. queue.now) queues.now)
        seats.now slots.old component }
    ensures numbers { IfOk result (λ made.
        AreNumbers seats.now component ports made.numbers.items) }
    ensures fresh { IfOk result (λ made. AreFresh (λ (end : Rx). end.seat) its_receiver
        (map (λ queue. queue.now) queues.now) made.numbers.items made.ends.items) }
    ensures left { IfOk result (λ _.
        HaveSides its_receiver (map (λ queue. queue.now) queues.now)
        seats.now slots.new (component + 1)) }
{
    let numbers = numbers_of(alloc, seats, component, ports)?;
    let places = numbers.as_slice();
    let sides = take_at(alloc, slots, places)?;
    let ends = rx_ends(alloc, queues, places, sides)?;
    Ok(Numbered { numbers, ends })
}

/// A part of these.
fn part_of<'q, V: Device>(
    component: u32,
    runner: Runner<V>,
    outlets: Numbered<TxEnd<'q>>,
    inlets: Numbered<RxEnd<'q>>,
) -> Part<'q, V>
    ensures component { result.component ≡ component }
    ensures runner { result.driver.runner ≡ runner }
    ensures departures { result.departures ≡ outlets.entry.numbers.items }
    ensures arrivals { result.arrivals ≡ inlets.entry.numbers.items }
    ensures txs { result.driver.txs ≡ outlets.entry.ends }
    ensures rxs { result.driver.rxs ≡ inlets.entry.ends }
{
    Part {
        component,
        driver: Driver::new(runner, outlets.ends, inlets.ends),
        departures: Items::from_vec(outlets.numbers),
        arrivals: Items::from_vec(inlets.numbers),
    }
}

/// Out of which ports these ways lead.
fn seats_from(alloc: Global, ways: &[Way]) -> Result<Vec<Seat>, NoMemory>
    ensures { IfOk result (λ seats. seats.items ≡ map (λ (way : Leads). way.from) ways.now) }
{
    Ok(ways.iter().map(|way| way.from).collect(alloc)?)
}

/// Into which ports they lead.
fn seats_to(alloc: Global, ways: &[Way]) -> Result<Vec<Seat>, NoMemory>
    ensures { IfOk result (λ seats. seats.items ≡ map (λ (way : Leads). way.to) ways.now) }
{
    Ok(ways.iter().map(|way| way.to).collect(alloc)?)
}

/// The ports out of which the channels lead, and those into which they lead, by the channels' numbers; and the sides of their
/// queues in slots by the same numbers, until the parts of their components are made.
#[derive(Drop)]
pub(crate) struct Stock {
    pub(crate) froms: Vec<Seat>,
    pub(crate) tos: Vec<Seat>,
    pub(crate) senders: Vec<Option<Producer>>,
    pub(crate) receivers: Vec<Option<Consumer>>,
}

impl Stock {
    /// The ports of the channels of these links, and the sides that their senders and receivers have.
    pub(crate) fn new(
        alloc: Global,
        links: &[Link],
        producers: Vec<Producer>,
        consumers: Vec<Consumer>,
    ) -> Result<Stock, NoMemory>
        ensures froms { IfOk result (λ stock. stock.froms.items ≡ froms_of links.now) }
        ensures tos { IfOk result (λ stock. stock.tos.items ≡ tos_of links.now) }
        ensures senders { IfOk result (λ stock. stock.senders.items ≡ map Some producers.items) }
        ensures receivers { IfOk result (λ stock. stock.receivers.items
            ≡ map Some consumers.items) }
    {
        let ways = ways_of(alloc, links)?;
        let froms = seats_from(alloc, ways.as_slice())?;
        let tos = seats_to(alloc, ways.as_slice())?;
        Ok(Stock {
            froms,
            tos,
            senders: loosen(alloc, producers)?,
            receivers: loosen(alloc, consumers)?,
        })
    }

    /// The part of a component with so many ports, made after those of the components before it. These are the near
    /// and the far queues of all channels, by the channels' numbers.
    pub(crate) fn part<'q, V: Device>(
        &mut self,
        alloc: Global,
        nears: &[&'q SlotQueue],
        fars: &[&'q SlotQueue],
        component: u32,
        ports: u32,
        runner: Runner<V>,
    ) -> Result<Part<'q, V>, NoMemory>
        requires froms { HaveNumbers self.old.froms.items component ports }
        requires tos { HaveNumbers self.old.tos.items component ports }
        requires few { (length self.old.froms.items ≤ 2048) × (length self.old.tos.items ≤ 2048) }
        requires senders { HaveSides its_sender (map (λ queue. queue.now) nears.now)
            self.old.froms.items self.old.senders.items component }
        requires receivers { HaveSides its_receiver (map (λ queue. queue.now) fars.now)
            self.old.tos.items self.old.receivers.items component }
        ensures part { IfOk result (IsNewPart (map (λ queue. queue.now) nears.now)
            (map (λ queue. queue.now) fars.now)
            self.old.froms.items self.old.tos.items component ports runner) }
        ensures froms { self.new.froms ≡ self.old.froms }
        ensures tos { self.new.tos ≡ self.old.tos }
        ensures senders { IfOk result (λ _. HaveSides its_sender
            (map (λ queue. queue.now) nears.now)
            self.old.froms.items self.new.senders.items (component + 1)) }
        ensures receivers { IfOk result (λ _. HaveSides its_receiver
            (map (λ queue. queue.now) fars.now)
            self.old.tos.items self.new.receivers.items (component + 1)) }
    {
        let froms = self.froms.as_slice();
        let tos = self.tos.as_slice();
        let senders = self.senders.as_mut_slice();
        let receivers = self.receivers.as_mut_slice();
        let outlets = take_txs(alloc, nears, froms, senders, component, ports)?;
        let inlets = take_rxs(alloc, fars, tos, receivers, component, ports)?;
        Ok(part_of(component, runner, outlets, inlets))
    }
}
