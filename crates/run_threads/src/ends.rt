//! The ends of a component's channels.
ghost use Rattle.std.specs.Prelude.{◌≡◌, map, IfOk};
ghost use Rattle.slot_queue.specs.declared.ends.TxEnd.{TxEnd as Tx};
ghost use Rattle.slot_queue.specs.declared.ends.RxEnd.{RxEnd as Rx};
ghost use Rattle.run_threads.specs.Ends.{AreSendersOf, AreReceiversOf};

use cs_base::items::Items;
use cs_base::no_memory::NoMemory;
use slot_queue::{Consumer, Producer, RxEnd, SlotQueue, TxEnd};
use std::alloc::Global;

/// The sending ends of the queues at these places, with the sides that are given in the same order.
pub(crate) fn tx_ends<'q>(
    alloc: Global,
    queues: &[&'q SlotQueue],
    places: &[u32],
    sides: Vec<Producer>,
) -> Result<Vec<TxEnd<'q>>, NoMemory>
    requires { AreSendersOf (map (λ queue. queue.now) queues.now) places.now sides.items }
    ensures { IfOk result (λ ends. map (λ (end : Tx). end.seat) ends.items ≡ sides.items) }
{
    let mut ends = Vec::new(alloc);
    let mut left = Items::from_vec(sides);
    left.reverse();
    'sides: while let Some(seat) = left.pop() {
        let queue = queues[places[ends.len()] as usize];
        ends.push(TxEnd { queue, seat })?;
    }
    Ok(ends)
}

/// The receiving ends, likewise.
pub(crate) fn rx_ends<'q>(
    alloc: Global,
    queues: &[&'q SlotQueue],
    places: &[u32],
    sides: Vec<Consumer>,
) -> Result<Vec<RxEnd<'q>>, NoMemory>
    requires { AreReceiversOf (map (λ queue. queue.now) queues.now) places.now sides.items }
    ensures { IfOk result (λ ends. map (λ (end : Rx). end.seat) ends.items ≡ sides.items) }
{
    let mut ends = Vec::new(alloc);
    let mut left = Items::from_vec(sides);
    left.reverse();
    'sides: while let Some(seat) = left.pop() {
        let queue = queues[places[ends.len()] as usize];
        ends.push(RxEnd { queue, seat })?;
    }
    Ok(ends)
}
