ghost use Rattle.std.specs.Prelude.{◌≡◌, ◌+◌, ◌%◌, ◌<◌, ◌≤◌, IfOk};
ghost use Rattle.slot_queue.specs.Ends.{new_sender, new_receiver};

use crate::consumer::Consumer;
use crate::plays::{OwnerWords, Roles};
use crate::producer::Producer;
use crate::view::{Plan, View};
use atomic_table::Table;
use cs_base::no_memory::NoMemory;
use cs_base::port_kind::PortKind;
use sb_message::Msg;
use std::alloc::Global;
use std::marker::Model;

/// The owner's bit of a word: set where the slot is the consumer's.
pub(crate) const CONSUMER: u64 = 1 << 63;

/// Words of a cache line. Each slot's word has a line to itself, since the two sides change the words of neighbouring slots.
pub(crate) const WORDS_A_LINE: usize = 8;

/// A queue of messages to a port. It is made with its two sides, and shared by the threads that have them.
#[derive(Drop)]
pub struct SlotQueue {
    pub(crate) table: Table<Option<Msg>, View, Plan, OwnerWords, Global>,
    pub(crate) slots: usize,
}

impl Model for SlotQueue {
    ghost use Rattle.std.specs.Prelude.{◌≡◌, ◌*◌, ◌<◌, ◌≤◌};
    ghost use Rattle.slot_queue.specs.Ends.{Named};
    ghost use Rattle.slot_queue.specs.Words.{words_a_line};

    ghost Value = { Named };

    ghost view = { λ q. record { name = q.table.shared.table_id; kind = q.table.shared.key.kind } };

    ghost invariant = { λ q. (0 < q.slots) × (q.slots ≤ 1024) × (q.table.shared.table_id.words ≡ q.slots * words_a_line) × (q.table.shared.table_id.slots ≡ q.slots) × (q.table.shared.key.slots ≡ q.slots) };
}

impl SlotQueue {
    /// A queue of so many slots, 1 to 1,024, to a port of this kind, and its two sides.
    pub fn new(
        alloc: Global,
        slots: u32,
        kind: PortKind,
    ) -> Result<(SlotQueue, Producer, Consumer), NoMemory>
        requires slots { (1 ≤ slots) × (slots ≤ 1024) }
        ensures slots { IfOk result (λ made. made.0.name.slots ≡ slots) }
        ensures kind { IfOk result (λ made. made.0.kind ≡ kind) }
        ensures producer { IfOk result (λ made. made.1 ≡ new_sender made.0.name kind) }
        ensures consumer { IfOk result (λ made. made.2 ≡ new_receiver made.0.name kind) }
    {
        let slots = slots as usize;
        let words = vec![in alloc; 0; slots * WORDS_A_LINE]?;
        let plan = Plan { slots, kind };
        let (table, mut seat) = Table::vacant(alloc, words.as_slice(), slots, &plan)?;
        let other = table.shared.split_seat::<Roles>(&mut seat);
        let producer = Producer { seat, next: 0 };
        let consumer = Consumer {
            seat: other,
            next: 0,
        };
        Ok((SlotQueue { table, slots }, producer, consumer))
    }
}

/// The place after this one, of so many.
pub(crate) fn place_after(place: usize, slots: usize) -> usize
    requires { (place < slots) × (slots ≤ 1024) }
    ensures { result ≡ (place + 1) % slots }
{
    if place + 1 == slots { 0 } else { place + 1 }
}
