ghost use Rattle.std.specs.Prelude.{◌≡◌, ◌<◌, ◌≤◌, [], List, vec_capacity};
ghost use Rattle.std.specs.Mem.Slots.{slots_items, slots_len, IsFull};
ghost use Rattle.sb_message.specs.declared.message.Msg.{Msg};
ghost use Rattle.slot_queue.specs.Closing.{Holds, AreHeld};

use atomic_table::Closed;
use sb_message::Msg;
use std::alloc::Global;

// Takes the messages out of the slots, from `first` on and round the end, and frees the slots.
pub(crate) fn gather(
    mut closed: Closed<Option<Msg>, Global>,
    first: usize,
    slots: usize,
    mut list: Vec<Msg>,
) -> Vec<Msg>
    requires places { (first < slots) × (slots ≤ 1024) }
    requires slots { (slots_len closed.slots ≡ slots) × IsFull closed.slots }
    requires held { (waiting : List Msg) × Holds first slots (slots_items closed.slots) waiting }
    requires room { (list.items ≡ []) × (slots ≤ vec_capacity list) }
    ensures { AreHeld first slots (slots_items closed.slots) result.items }
{
    for k in 0..slots {
        match closed.take((first + k) % slots) {
            Some(m) => list.push_reserved(m),
            None => {}
        }
    }
    closed.free();
    list
}
