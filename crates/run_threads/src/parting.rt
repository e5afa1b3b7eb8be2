//! The parts of a crew, taken apart into their runners and the sides of their channels' queues. None of it takes memory.
ghost use Rattle.std.specs.Prelude.{◌≡◌, ◌≤◌, [], length, map, reverse, vec_capacity};
ghost use Rattle.slot_queue.specs.declared.ends.TxEnd.{TxEnd as Tx};
ghost use Rattle.slot_queue.specs.declared.ends.RxEnd.{RxEnd as Rx};
ghost use Rattle.run_threads.specs.Parting.{HavePlaces, PutBack, HaveOwnPlaces, AreBack, AreFilled, AreSidesIn, runner_of, txs_of, rxs_of, departures_of, arrivals_of};

use crate::part::Part;
use crate::seats::put_back;
use cs_base::items::Items;
use device_api::Device;
use slot_queue::{Consumer, Producer, RxEnd, TxEnd};
use sync_rule::Runner;

/// The runner of a part, whose ends go into slots by the numbers of their channels.
fn open<'q, V: Device>(
    part: Part<'q, V>,
    senders: &mut [Option<TxEnd<'q>>],
    receivers: &mut [Option<RxEnd<'q>>],
) -> Runner<V>
    requires departures { HavePlaces (length part.driver.txs.items) (length senders.old)
        part.departures }
    requires arrivals { HavePlaces (length part.driver.rxs.items) (length receivers.old)
        part.arrivals }
    ensures runner { result ≡ part.entry.driver.runner }
    ensures sending { PutBack part.entry.driver.txs.items part.entry.departures
        senders.old senders.new }
    ensures receiving { PutBack part.entry.driver.rxs.items part.entry.arrivals
        receivers.old receivers.new }
{
    let Part {
        driver,
        departures,
        arrivals,
        ..
    } = part;
    let (runner, txs, rxs) = driver.close();
    put_back(txs, departures.as_slice(), senders);
    put_back(rxs, arrivals.as_slice(), receivers);
    runner
}

/// The runners of parts that stand in turned order, and their ends in slots by the numbers of their channels.
pub(crate) fn open_all<'q, V: Device>(
    parts: Vec<Part<'q, V>>,
    runners: &mut Vec<Runner<V>>,
    senders: &mut [Option<TxEnd<'q>>],
    receivers: &mut [Option<RxEnd<'q>>],
)
    requires departures { HaveOwnPlaces departures_of txs_of (length senders.old)
        (reverse parts.items) }
    requires arrivals { HaveOwnPlaces arrivals_of rxs_of (length receivers.old)
        (reverse parts.items) }
    requires none { runners.old.items ≡ [] }
    requires room { length parts.items ≤ vec_capacity runners.old }
    ensures runners { runners.new.items ≡ map runner_of (reverse parts.entry.items) }
    ensures sending { AreBack departures_of txs_of (reverse parts.entry.items) senders.new }
    ensures receiving { AreBack arrivals_of rxs_of (reverse parts.entry.items) receivers.new }
    ensures slots_to_send { length senders.new ≡ length senders.old }
    ensures slots_to_receive { length receivers.new ≡ length receivers.old }
{
    let mut left = Items::from_vec(parts);
    'parts: while let Some(part) = left.pop() {
        runners.push_reserved(open(part, senders, receivers));
    }
}

/// The sides of the queues whose sending ends are in the slots, in order.
pub(crate) fn producers_in<'q>(slots: Vec<Option<TxEnd<'q>>>, producers: &mut Vec<Producer>)
    requires filled { AreFilled slots.items }
    requires none { producers.old.items ≡ [] }
    requires room { length slots.items ≤ vec_capacity producers.old }
    ensures { AreSidesIn (λ (end : Tx). end.seat) slots.entry.items producers.new.items }
{
    let mut left = Items::from_vec(slots);
    left.reverse();
    'slots: while let Some(slot) = left.pop() {
        let Some(end) = slot else { unreachable!() };
        let TxEnd { seat, .. } = end;
        producers.push_reserved(seat);
    }
}

/// The sides of the queues whose receiving ends are in the slots, in order.
pub(crate) fn consumers_in<'q>(slots: Vec<Option<RxEnd<'q>>>, consumers: &mut Vec<Consumer>)
    requires filled { AreFilled slots.items }
    requires none { consumers.old.items ≡ [] }
    requires room { length slots.items ≤ vec_capacity consumers.old }
    ensures { AreSidesIn (λ (end : Rx). end.seat) slots.entry.items consumers.new.items }
{
    let mut left = Items::from_vec(slots);
    left.reverse();
    'slots: while let Some(slot) = left.pop() {
        let Some(end) = slot else { unreachable!() };
        let RxEnd { seat, .. } = end;
        consumers.push_reserved(seat);
    }
}
