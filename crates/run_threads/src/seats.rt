//! Elements of lists in places of their own, from which they are taken in whatever order, and to which they come back.
ghost use Rattle.std.specs.Prelude.{◌≡◌, ◌<◌, length, map, slice_get, slice_set, Some, None, IfOk};
ghost use Rattle.run_threads.specs.Parting.{HavePlaces, PutBack};
ghost use Rattle.run_threads.specs.Seats.{AreThere, Taken};

use cs_base::items::Items;
use cs_base::no_memory::NoMemory;
use std::alloc::Global;

/// Each element in a place of its own.
pub(crate) fn loosen<X: Drop>(alloc: Global, items: Vec<X>) -> Result<Vec<Option<X>>, NoMemory>
    ensures { IfOk result (λ slots. slots.items ≡ map Some items.items) }
{
    let mut slots = Vec::new(alloc);
    let mut left = Items::from_vec(items);
    left.reverse();
    'items: while let Some(item) = left.pop() {
        slots.push(Some(item))?;
    }
    Ok(slots)
}

/// Takes out what is in a place.
fn take_slot<X>(slots: &mut [Option<X>], place: usize) -> Option<X>
    requires { place < length slots.old }
    ensures taken { slice_get slots.old place ≡ Some result }
    ensures left { slots.new ≡ slice_set slots.old place None }
{
    slots[place].take()
}

/// Takes the elements at these places out, in this order.
pub(crate) fn take_at<X: Drop>(
    alloc: Global,
    slots: &mut [Option<X>],
    places: &[u32],
) -> Result<Vec<X>, NoMemory>
    requires { AreThere slots.old places.now }
    ensures { IfOk result (λ taken. Taken slots.old places.now slots.new taken.items) }
{
    let mut taken = Vec::new(alloc);
    for place in places {
        let Some(item) = take_slot(slots, *place as usize) else {
            unreachable!()
        };
        taken.push(item)?;
    }
    Ok(taken)
}

/// Puts an element into a place.
fn put_slot<X: Drop>(slots: &mut [Option<X>], place: usize, item: X)
    requires { place < length slots.old }
    ensures { slots.new ≡ slice_set slots.old place (Some item) }
{
    slots[place] = Some(item);
}

/// Puts each element into its place. It takes no memory.
pub(crate) fn put_back<X: Drop>(items: Vec<X>, places: &[u32], slots: &mut [Option<X>])
    requires { HavePlaces (length items.items) (length slots.old) places.now }
    ensures { PutBack items.items places.now slots.old slots.new }
{
    let mut left = Items::from_vec(items);
    'items: while let Some(item) = left.pop() {
        put_slot(slots, places[left.len()] as usize, item);
    }
}
