//! The queues of a run with their sides, shared out to the channels.
ghost use Rattle.std.specs.Prelude.{◌≡◌, ◌≤◌, ◌<◌, ◌+◌, ◌++◌, ◌∷◌, [], List, length, slice_get, Some, IfOk, OnOk};
ghost use Rattle.cs_base.specs.declared.port_kind.PortKind.{PortKind};
ghost use Rattle.run_threads.specs.Proxied.{AreAllNew, others_of};
ghost use Rattle.run_threads.specs.Queues.{its_sender, its_receiver};
ghost use Rattle.run_threads.specs.Sharing.{AreLeft, AreOf, AreShared, Shared, share_more};

use cs_base::items::Items;
use cs_base::link::Link;
use cs_base::no_memory::NoMemory;
use cs_base::port_kind::Via;
use slot_queue::{Consumer, Producer, RxEnd, SlotQueue, TxEnd};
use std::alloc::Global;

/// A queue with both its sides, of which nothing was used.
#[derive(Drop)]
struct Unused<'q> {
    queue: &'q SlotQueue,
    producer: Producer,
    consumer: Consumer,
}

/// The sides of the queues from a place on, in turned order.
#[derive(Drop)]
struct Left {
    at: usize,
    producers: Items<Producer>,
    consumers: Items<Consumer>,
}

/// The queues of the channels and their sides, by the channels' numbers, and what stands between a near and a far queue.
#[derive(Drop)]
pub(crate) struct Shares<'q> {
    /// The queues that the channels' senders push into, and their sides.
    pub(crate) nears: Vec<&'q SlotQueue>,
    pub(crate) senders: Vec<Producer>,
    /// Those out of which the receivers pop, and their sides.
    pub(crate) fars: Vec<&'q SlotQueue>,
    pub(crate) receivers: Vec<Consumer>,
    /// Of the channels by proxy alone, in order: the end out of the near queue, and that into the far one.
    pub(crate) outs: Vec<RxEnd<'q>>,
    pub(crate) ins: Vec<TxEnd<'q>>,
}

impl Left {
    /// The next queue.
    fn next<'q>(&mut self, queues: &'q [SlotQueue]) -> Unused<'q>
        requires left { AreLeft queues.now self.old }
        requires more { self.old.at < length queues.now }
        ensures queue { slice_get queues.now self.old.at ≡ Some result.queue.now }
        ensures producer { result.producer ≡ its_sender result.queue.now }
        ensures consumer { result.consumer ≡ its_receiver result.queue.now }
        ensures left { AreLeft queues.now self.new }
        ensures at { self.new.at ≡ self.old.at + 1 }
    {
        let queue = &queues[self.at];
        let Some(producer) = self.producers.pop() else {
            unreachable!()
        };
        let Some(consumer) = self.consumers.pop() else {
            unreachable!()
        };
        self.at += 1;
        Unused {
            queue,
            producer,
            consumer,
        }
    }
}

impl<'q> Shares<'q> {
    /// The queues of one channel more, and the sides of its sender and its receiver.
    fn add(
        &mut self,
        near: &'q SlotQueue,
        sender: Producer,
        far: &'q SlotQueue,
        receiver: Consumer,
    ) -> Result<(), NoMemory>
        requires sender { sender ≡ its_sender near.now }
        requires receiver { receiver ≡ its_receiver far.now }
        ensures { OnOk result ((of : Shared) → AreOf of self.old → AreOf (record of {
          nears = of.nears ++ near.now ∷ [];
          fars = of.fars ++ far.now ∷ [];
        }) self.new) }
    {
        self.nears.push(near)?;
        self.senders.push(sender)?;
        self.fars.push(far)?;
        self.receivers.push(receiver)?;
        Ok(())
    }

    /// The ends between the queues of one channel more.
    fn add_between(
        &mut self,
        near: &'q SlotQueue,
        out: Consumer,
        far: &'q SlotQueue,
        into: Producer,
    ) -> Result<(), NoMemory>
        requires out { out ≡ its_receiver near.now }
        requires into { into ≡ its_sender far.now }
        ensures { OnOk result ((of : Shared) → AreOf of self.old → AreOf (record of {
          between_near = of.between_near ++ near.now ∷ [];
          between_far = of.between_far ++ far.now ∷ [];
        }) self.new) }
    {
        self.outs.push(RxEnd {
            queue: near,
            seat: out,
        })?;
        self.ins.push(TxEnd {
            queue: far,
            seat: into,
        })?;
        Ok(())
    }

    /// One channel more, which has the next queue, or the next two.
    fn add_channel(
        &mut self,
        queues: &'q [SlotQueue],
        via: Via,
        left: &mut Left,
    ) -> Result<(), NoMemory>
        requires left { AreLeft queues.now left.old }
        requires more { left.old.at + (others_of via + 1) ≤ length queues.now }
        ensures shared { OnOk result ((of : Shared) → AreOf of self.old
            → AreOf (share_more queues.now via left.old.at of) self.new) }
        ensures left { AreLeft queues.now left.new }
        ensures at { left.new.at ≡ left.old.at + (others_of via + 1) }
    {
        let Unused {
            queue: near,
            producer: sender,
            consumer: first,
        } = left.next(queues);
        match via {
            Via::Queue => self.add(near, sender, near, first),
            Via::Proxy => {
                let Unused {
                    queue: far,
                    producer: last,
                    consumer: receiver,
                } = left.next(queues);
                self.add_between(near, first, far, last)?;
                self.add(near, sender, far, receiver)
            }
        }
    }
}

/// Shares out the queues of the channels of these links.
pub(crate) fn share_out<'q>(
    alloc: Global,
    queues: &'q [SlotQueue],
    producers: Vec<Producer>,
    consumers: Vec<Consumer>,
    links: &[Link],
) -> Result<Shares<'q>, NoMemory>
    requires { (kinds : List (List PortKind)) × AreAllNew kinds links.now
        queues.now producers.items consumers.items }
    ensures { IfOk result (AreShared links.now queues.now) }
{
    let mut left = Left {
        at: 0,
        producers: Items::from_vec(producers),
        consumers: Items::from_vec(consumers),
    };
    left.producers.reverse();
    left.consumers.reverse();
    let mut shares = Shares {
        nears: Vec::new(alloc),
        senders: Vec::new(alloc),
        fars: Vec::new(alloc),
        receivers: Vec::new(alloc),
        outs: Vec::new(alloc),
        ins: Vec::new(alloc),
    };
    for link in links {
        shares.add_channel(queues, link.via, &mut left)?;
        shares.add_channel(queues, link.via, &mut left)?;
    }
    Ok(shares)
}
