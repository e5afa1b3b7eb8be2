//! The ends of channels that go by proxy, behind the components of a run.
ghost use Rattle.std.specs.Prelude.{◌≤◌, ◌<◌, length, IfOk};
ghost use Rattle.crew_members.specs.Staffing.{AreUnused};
ghost use Rattle.proxy_crew.specs.Engaging.{AreEngaged};

use crate::proxied::Proxied;
use crew_members::{Hand, enlist, staffed};
use cs_base::items::Items;
use cs_base::no_memory::NoMemory;
use proxy_members::{InMember, OutMember};
use std::alloc::Global;
use worker_rounds::Worker;

/// The same workers, to which the ends of all these channels come, one channel after another: its sending end to the worker
/// of its sender, and its receiving end to that of its receiver, of which component number n is on worker n modulo the
/// number of workers. Each goes behind the members that are there.
pub fn engage<'q, C: Drop, O: Drop, I: Drop>(
    alloc: Global,
    workers: Vec<Worker<C>>,
    proxied: Vec<Proxied<'q, O, I>>,
) -> Result<Vec<Worker<Hand<C, OutMember<'q, O>, InMember<'q, I>>>>, NoMemory>
    requires unused { AreUnused workers.items }
    requires some { 0 < length workers.items }
    requires few { length workers.items ≤ 64 }
    ensures { IfOk result (λ made. AreEngaged workers.items proxied.entry.items made.items) }
{
    let count = workers.len();
    let mut made = staffed(alloc, workers)?;
    let mut left = Items::from_vec(proxied);
    left.reverse();
    'channels: while let Some(one) = left.pop() {
        let sender = one.route.sender as usize % count;
        let receiver = one.route.receiver as usize % count;
        enlist(made.as_mut_slice(), sender, Hand::Sending(one.sending))?;
        enlist(
            made.as_mut_slice(),
            receiver,
            Hand::Receiving(one.receiving),
        )?;
    }
    Ok(made)
}
