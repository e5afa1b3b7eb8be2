ghost use Rattle.std.specs.Prelude.{◌≡◌, MatchOption};
ghost use Rattle.slot_queue.specs.Ends.{Popped, Emptied};

use crate::plays::{LooksForMessage, Receives};
use crate::queue::{CONSUMER, SlotQueue, WORDS_A_LINE, place_after};
use crate::view::View;
use atomic_table::Seat;
use sb_message::{Msg, word_of};
use std::marker::Model;

/// The consumer's side of a queue. No turn of it is open.
#[derive(Drop)]
pub struct Consumer {
    pub(crate) seat: Seat<Option<Msg>, View>,
    pub(crate) next: usize,
}

impl Model for Consumer {
    ghost use Rattle.std.specs.Prelude.{◌≡◌, ◌%◌, [], length, None};
    ghost use Rattle.slot_queue.specs.Ends.{Receiver};
    ghost use Rattle.slot_queue.specs.Views.{consuming};

    ghost Value = { Receiver };

    ghost view = { λ a. record { queue = a.seat.table_id; kind = a.seat.me.0.kind; received = a.seat.me.0.received; misses = a.seat.me.0.misses } };

    ghost invariant = { λ a. (a.seat.me ≡ (consuming a.seat.me.0.kind a.seat.me.0.received None a.seat.me.0.misses, [])) × (a.next ≡ length a.seat.me.0.received % a.seat.table_id.slots) };
}

impl SlotQueue {
    /// Receives the next message, unless the next slot is the producer's. It is one try, and takes no memory.
    pub fn pop(&self, end: &mut Consumer) -> Option<Msg>
        requires { end.old.queue ≡ self.now.name }
        ensures { MatchOption result (Emptied end.old end.new) (λ m. Popped end.old m end.new) }
    {
        let slots = self.slots;
        let place = end.next;
        let line = place * WORDS_A_LINE;
        let steps = &self.table.shared;
        let found = steps.load::<LooksForMessage>(&mut end.seat, line);
        if found < CONSUMER {
            return None;
        }
        let Some(m) = steps.exchange(&mut end.seat, place, None) else {
            unreachable!()
        };
        let word = word_of(m.body.ty(), false);
        steps.store::<Receives>(&mut end.seat, line, word);
        end.next = place_after(place, slots);
        Some(m)
    }
}
