//! The closing of all queues of a run.
ghost use Rattle.std.specs.Prelude.{◌∷◌, [], map, IfOk, OnOk};
ghost use Rattle.slot_queue.specs.Ends.{Named};
ghost use Rattle.thread_run.specs.Closing.{slots_of, each_queue, HasMoreRooms, HasRooms, AreSidesOf, AreClosed};

use cs_base::items::Items;
use cs_base::link::Link;
use cs_base::no_memory::NoMemory;
use cs_base::port_kind::Via;
use slot_queue::{Consumer, Producer, Rest, SlotQueue};
use std::alloc::Global;

/// Room for what is left of the queues of a run, so that closing them takes no memory.
#[derive(Drop)]
pub struct Rooms {
    /// One for each queue.
    pub(crate) rooms: Items<Rest>,
    /// For the closed ones.
    pub(crate) rests: Vec<Rest>,
}

/// Room for one queue more.
fn add_room(alloc: Global, slots: u32, rooms: &mut Items<Rest>) -> Result<(), NoMemory>
    ensures { OnOk result (HasMoreRooms (slots ∷ []) rooms.old rooms.new) }
{
    let room = Rest::reserve(alloc, slots)?;
    rooms.push(room)
}

/// Room for the queues of one channel more: one, or two where it goes by proxy.
fn add_rooms(alloc: Global, via: Via, slots: u32, rooms: &mut Items<Rest>) -> Result<(), NoMemory>
    ensures { OnOk result (HasMoreRooms (each_queue via slots) rooms.old rooms.new) }
{
    add_room(alloc, slots, rooms)?;
    match via {
        Via::Queue => Ok(()),
        Via::Proxy => add_room(alloc, slots, rooms),
    }
}

impl Rooms {
    /// Room for the queues of the two channels of each of these links.
    pub fn reserve(alloc: Global, links: &[Link]) -> Result<Rooms, NoMemory>
        ensures { IfOk result (HasRooms (slots_of links.now)) }
    {
        let mut rooms = Items::new(alloc);
        for link in links {
            add_rooms(alloc, link.via, link.slots, &mut rooms)?;
            add_rooms(alloc, link.via, link.slots, &mut rooms)?;
        }
        let rests = Vec::with_capacity(alloc, rooms.len())?;
        Ok(Rooms { rooms, rests })
    }
}

/// Closes queues with their sides: the rests are in the order of the queues. No memory is taken.
pub fn close_all(
    queues: Vec<SlotQueue>,
    producers: Vec<Producer>,
    consumers: Vec<Consumer>,
    rooms: Rooms,
) -> Vec<Rest>
    requires sides { AreSidesOf queues.items producers.items consumers.items }
    requires rooms { HasRooms (map (λ (queue : Named). queue.name.slots) queues.items) rooms }
    ensures { AreClosed producers.items consumers.items result.items }
{
    let Rooms {
        mut rooms,
        mut rests,
    } = rooms;
    let mut queues = Items::from_vec(queues);
    let mut producers = Items::from_vec(producers);
    let mut consumers = Items::from_vec(consumers);
    queues.reverse();
    producers.reverse();
    consumers.reverse();
    rooms.reverse();
    'queues: while let Some(queue) = queues.pop() {
        let Some(producer) = producers.pop() else {
            unreachable!()
        };
        let Some(consumer) = consumers.pop() else {
            unreachable!()
        };
        let Some(room) = rooms.pop() else {
            unreachable!()
        };
        rests.push_reserved(queue.close(producer, consumer, room));
    }
    rests
}
