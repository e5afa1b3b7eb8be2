ghost use Rattle.std.specs.Prelude.{◌≡◌, ◌≤◌, ◌++◌, ◌∷◌, [], All, IfOk, OnOk};
ghost use Rattle.cs_base.specs.Plan.{IsWithinLimits};
ghost use Rattle.run_threads.specs.Queues.{Added};
ghost use Rattle.run_threads.specs.Proxied.{AreAllNew, ChannelAdded};

use cs_base::items::Items;
use cs_base::link::Link;
use cs_base::no_memory::NoMemory;
use cs_base::port_kind::{PortKind, Via};
use cs_base::wiring::Wiring;
use mesh_core::build::kind_of;
use slot_queue::{Consumer, Producer, SlotQueue};
use std::alloc::Global;

/// The queues of a run, one for each channel in the order of the channels' numbers, and the two sides of each.
#[derive(Drop)]
pub struct Queues {
    pub queues: Vec<SlotQueue>,
    pub producers: Vec<Producer>,
    pub consumers: Vec<Consumer>,
}

impl Queues {
    /// New queues for the channels of a wiring, in the order of the channels: one for a channel by queue, and two, near then
    /// far, for one by proxy. Each has as many slots as its link asks for, and the kind of the port that receives from its
    /// channel.
    pub fn build(alloc: Global, wiring: &Wiring) -> Result<Queues, NoMemory>
        ensures { IfOk result (λ made. AreAllNew wiring.now.kinds wiring.now.links
            made.queues.items made.producers.items made.consumers.items) }
    {
        build_along(alloc, wiring.kinds.as_slice(), wiring.links.as_slice())
    }

    /// The queues of one channel more: one, or two where it goes by proxy.
    fn add_channel(
        &mut self,
        alloc: Global,
        via: Via,
        slots: u32,
        kind: PortKind,
    ) -> Result<(), NoMemory>
        requires { (1 ≤ slots) × (slots ≤ 1024) }
        ensures { OnOk result (ChannelAdded via slots kind
            self.old.queues.items self.old.producers.items self.old.consumers.items
            self.new.queues.items self.new.producers.items self.new.consumers.items) }
    {
        self.add(alloc, slots, kind)?;
        match via {
            Via::Queue => Ok(()),
            Via::Proxy => self.add(alloc, slots, kind),
        }
    }

    /// One queue more.
    fn add(&mut self, alloc: Global, slots: u32, kind: PortKind) -> Result<(), NoMemory>
        requires { (1 ≤ slots) × (slots ≤ 1024) }
        ensures { OnOk result (Added slots kind
            self.old.queues.items self.old.producers.items self.old.consumers.items
            self.new.queues.items self.new.producers.items self.new.consumers.items) }
    {
        let (queue, producer, consumer) = SlotQueue::new(alloc, slots, kind)?;
        self.queues.push(queue)?;
        self.producers.push(producer)?;
        self.consumers.push(consumer)?;
        Ok(())
    }
}

/// The queues of the two channels of each link.
fn build_along(alloc: Global, kinds: &[Items<PortKind>], links: &[Link]) -> Result<Queues, NoMemory>
    requires { All IsWithinLimits links.now }
    ensures { IfOk result (λ made. AreAllNew kinds.now links.now
        made.queues.items made.producers.items made.consumers.items) }
{
    let mut made = Queues {
        queues: Vec::new(alloc),
        producers: Vec::new(alloc),
        consumers: Vec::new(alloc),
    };
    for link in links {
        let kind = kind_of(kinds, link.b, link.b_port);
        made.add_channel(alloc, link.via, link.slots, kind)?;
        let kind = kind_of(kinds, link.a, link.a_port);
        made.add_channel(alloc, link.via, link.slots, kind)?;
    }
    Ok(made)
}
