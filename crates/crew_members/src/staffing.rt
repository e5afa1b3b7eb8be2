//! Workers with components, to which the ends of channels come.
ghost use Rattle.std.specs.Prelude.{◌≡◌, ◌≤◌, ◌<◌, length, map, IfOk, OnOk};
ghost use Rattle.crew_members.specs.declared.hand.Hand.TheVariants.{Component as AsHand};
ghost use Rattle.crew_members.specs.Hands.{component_of, sending_of, receiving_of};
ghost use Rattle.crew_members.specs.Sorts.{among};
ghost use Rattle.crew_members.specs.Staffing.{AreUnused, as_hands, OneMore, Joined};

use crate::hand::Hand;
use cs_base::items::Items;
use cs_base::no_memory::NoMemory;
use std::alloc::Global;
use worker_rounds::Worker;

/// Components as members of which there are three sorts.
fn hands_of<C: Drop, O: Drop, I: Drop>(
    alloc: Global,
    components: Vec<C>,
) -> Result<Vec<Hand<C, O, I>>, NoMemory>
    ensures { IfOk result (λ hands. hands.items ≡ map AsHand components.items) }
{
    let mut hands = Vec::new(alloc);
    let mut left = Items::from_vec(components);
    left.reverse();
    'components: while let Some(component) = left.pop() {
        hands.push(Hand::Component(component))?;
    }
    Ok(hands)
}

/// The same workers, whose members are of three sorts: so far all are components. The workers have made no round, and each
/// has its place as its number.
pub fn staffed<C: Drop, O: Drop, I: Drop>(
    alloc: Global,
    workers: Vec<Worker<C>>,
) -> Result<Vec<Worker<Hand<C, O, I>>>, NoMemory>
    requires unused { AreUnused workers.items }
    requires few { length workers.items ≤ 64 }
    ensures { IfOk result (λ made. made.items ≡ map as_hands workers.items) }
{
    let mut made = Vec::new(alloc);
    let mut left = Items::from_vec(workers);
    left.reverse();
    let mut number = 0;
    'workers: while let Some(worker) = left.pop() {
        let hands = hands_of(alloc, worker.into_members())?;
        made.push(Worker::new(number, hands))?;
        number += 1;
    }
    Ok(made)
}

/// One member more on the worker at this place, behind the others. Of the members of another sort nothing changes.
pub fn enlist<C: Drop, O: Drop, I: Drop>(
    workers: &mut [Worker<Hand<C, O, I>>],
    place: usize,
    hand: Hand<C, O, I>,
) -> Result<(), NoMemory>
    requires { place < length workers.old }
    ensures more { OnOk result (OneMore place hand workers.old workers.new) }
    ensures components { OnOk result (Joined place (component_of hand)
        (among component_of workers.old) (among component_of workers.new)) }
    ensures sending { OnOk result (Joined place (sending_of hand)
        (among sending_of workers.old) (among sending_of workers.new)) }
    ensures receiving { OnOk result (Joined place (receiving_of hand)
        (among receiving_of workers.old) (among receiving_of workers.new)) }
{
    workers[place].add(hand)?;
    Ok(())
}
