ghost use Rattle.std.specs.Prelude.{◌≡◌, ◌≤◌, ◌++◌, [], length, IfOk};

use crate::closing::gather;
use crate::consumer::Consumer;
use crate::plays::{Memory, Roles};
use crate::producer::Producer;
use crate::queue::SlotQueue;
use crate::view::View;
use atomic_table::Badge;
use cs_base::no_memory::NoMemory;
use sb_message::Msg;
use std::alloc::Global;
use std::marker::Model;

/// What is left of a queue when it is closed: the messages that were sent and not received. Contracts see besides all
/// that was sent and all that was received, which takes no bytes.
#[derive(Drop)]
pub struct Rest {
    pub(crate) list: Vec<Msg>,
    pub(crate) memory: Badge<View>,
}

impl Model for Rest {
    ghost use Rattle.std.specs.Prelude.{◌-◌, vec_len, vec_capacity};
    ghost use Rattle.slot_queue.specs.Closing.{Remains};

    ghost Value = { Remains };

    ghost use Rattle.slot_queue.specs.Closing.{sent_by, received_by};

    ghost view = { λ a. record { messages = a.list.items; spare = vec_capacity a.list - vec_len a.list; sent = sent_by a.memory.views; received = received_by a.memory.views } };
}

impl Rest {
    /// Room for what is left of a queue of so many slots. Nothing is in it yet.
    pub fn reserve(alloc: Global, slots: u32) -> Result<Rest, NoMemory>
        ensures messages { IfOk result (λ rest. rest.messages ≡ []) }
        ensures lists { IfOk result (λ rest. (rest.sent ≡ []) × (rest.received ≡ [])) }
        ensures room { IfOk result (λ rest. slots ≤ rest.spare) }
    {
        let list = Vec::with_capacity(alloc, slots as usize)?;
        Ok(Rest {
            list,
            memory: Badge::blank(),
        })
    }

    /// The messages that were sent and not received, in order.
    pub fn messages(&self) -> &[Msg]
        ensures { result.now ≡ self.now.messages }
    {
        self.list.as_slice()
    }
}

impl SlotQueue {
    /// Closes the queue. Both sides of it are needed, and room for all that may be left in it; no memory is taken.
    pub fn close(self, producer: Producer, consumer: Consumer, room: Rest) -> Rest
        requires seats { (producer.queue ≡ self.name) × (consumer.queue ≡ self.name) }
        requires room { (room.messages ≡ []) × (self.name.slots ≤ room.spare) }
        ensures lists { (result.sent ≡ producer.sent) × (result.received ≡ consumer.received) }
        ensures rest { result.received ++ result.messages ≡ result.sent }
        ensures within { length result.messages ≤ self.name.slots }
    {
        let SlotQueue { table, slots } = self;
        let Producer {
            seat: mut both,
            next: _,
        } = producer;
        let Consumer { seat, next: first } = consumer;
        let Rest { list, memory: _ } = room;
        table.shared.join_seat::<Roles>(&mut both, seat);
        let memory = table.shared.split_seat::<Memory>(&mut both);
        let list = gather(table.close_with(both), first, slots, list);
        Rest {
            list,
            memory: memory.into_badge(),
        }
    }
}
