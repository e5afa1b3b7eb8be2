//! The ends of channels leave the workers on which they stand behind the components.
ghost use Rattle.std.specs.Prelude.{◌≡◌, [], IfOk};
ghost use Rattle.crew_members.specs.Staffing.{OneMore};
ghost use Rattle.proxy_crew.specs.Ending.{HasRoom, MayDismiss, Dismisses};
ghost use Rattle.proxy_crew.specs.Leaving.{HasLast, BothCame, HaveComeLast};

use crate::ending::wire_end;
use crate::route::Route;
use crew_members::Hand;
use cs_base::items::Items;
use cs_base::no_memory::NoMemory;
use cs_base::wire_end::WireEnd;
use proxy_members::{InMember, OutMember};
use slot_queue::{Consumer, Producer};
use std::alloc::Global;
use worker_rounds::Worker;

/// What is left of channels by proxy, in their order: their wires with the bytes that were to go and those that came, the
/// sides of their near queues at which messages were taken out, and the sides of their far queues at which they were put in.
#[derive(Drop)]
pub struct Dismissed<O, I> {
    pub ends: Vec<WireEnd<O, I>>,
    pub near: Vec<Consumer>,
    pub far: Vec<Producer>,
}

impl<O: Drop, I: Drop> Dismissed<O, I> {
    /// Room for what is left of so many channels, so that they leave without memory.
    pub fn reserve(alloc: Global, count: usize) -> Result<Dismissed<O, I>, NoMemory>
        ensures { IfOk result (HasRoom count) }
    {
        Ok(Dismissed {
            ends: Vec::with_capacity(alloc, count)?,
            near: Vec::with_capacity(alloc, count)?,
            far: Vec::with_capacity(alloc, count)?,
        })
    }
}

/// Takes the last member off the worker at this place.
fn last_at<M: Drop>(workers: &mut [Worker<M>], place: usize) -> M
    requires { HasLast place workers.old }
    ensures { OneMore place result workers.new workers.old }
{
    let Some(last) = workers[place].take_last() else {
        unreachable!()
    };
    last
}

/// Takes both ends of a channel off the workers to which they came last.
fn last_ends<'q, C: Drop, O: Drop, I: Drop>(
    workers: &mut [Worker<Hand<C, OutMember<'q, O>, InMember<'q, I>>>],
    route: Route,
) -> (OutMember<'q, O>, InMember<'q, I>)
    requires { HaveComeLast route workers.old }
    ensures { BothCame route result.0 result.1 workers.new workers.old }
{
    let count = workers.len();
    let Hand::Receiving(receiving) = last_at(workers, route.receiver as usize % count) else {
        unreachable!()
    };
    let Hand::Sending(sending) = last_at(workers, route.sender as usize % count) else {
        unreachable!()
    };
    (sending, receiving)
}

/// Takes both ends of each channel off the workers, from the last channel down, and leaves what they were in order. It takes
/// no memory.
pub fn dismiss<'q, C: Drop, O: Drop, I: Drop>(
    workers: &mut [Worker<Hand<C, OutMember<'q, O>, InMember<'q, I>>>],
    routes: &mut Items<Route>,
    left: &mut Dismissed<O, I>,
)
    requires engaged { MayDismiss workers.old routes.old left.old }
    ensures dismissed { Dismisses routes.old workers.old workers.new left.new }
    ensures none_left { routes.new ≡ [] }
{
    'channels: while let Some(route) = routes.pop() {
        let (sending, receiving) = last_ends(workers, route);
        let (end, near, far) = wire_end(sending, receiving);
        left.ends.push_reserved(end);
        left.near.push_reserved(near);
        left.far.push_reserved(far);
    }
    left.ends.as_mut_slice().reverse();
    left.near.as_mut_slice().reverse();
    left.far.as_mut_slice().reverse();
}
