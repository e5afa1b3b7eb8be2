ghost use Rattle.std.specs.Prelude.{◌≡◌, ◌∷◌, ◌++◌, [], MatchResult};
ghost use Rattle.sb_message.specs.Stream.{IsStream};
ghost use Rattle.slot_queue.specs.Ends.{Pushed, CameBack};

use crate::plays::{LooksForRoom, Sends};
use crate::queue::{CONSUMER, SlotQueue, WORDS_A_LINE, place_after};
use crate::view::View;
use atomic_table::Seat;
use port_queue::Full;
use sb_message::{Msg, word_of};
use std::marker::Model;

/// The producer's side of a queue. No turn of it is open.
#[derive(Drop)]
pub struct Producer {
    pub(crate) seat: Seat<Option<Msg>, View>,
    pub(crate) next: usize,
}

impl Model for Producer {
    ghost use Rattle.std.specs.Prelude.{◌≡◌, ◌%◌, [], length, false};
    ghost use Rattle.slot_queue.specs.Ends.{Sender};
    ghost use Rattle.slot_queue.specs.Views.{producing};

    ghost Value = { Sender };

    ghost view = { λ a. record { queue = a.seat.table_id; kind = a.seat.me.0.kind; sent = a.seat.me.0.sent; misses = a.seat.me.0.misses } };

    ghost invariant = { λ a. (a.seat.me ≡ (producing a.seat.me.0.kind a.seat.me.0.sent false a.seat.me.0.misses, [])) × (a.next ≡ length a.seat.me.0.sent % a.seat.table_id.slots) };
}

impl SlotQueue {
    /// Sends the message, unless the next slot is the consumer's: then it comes back. It is one try, and takes no memory.
    pub fn push(&self, end: &mut Producer, m: Msg) -> Result<(), Full>
        requires queue { end.old.queue ≡ self.now.name }
        requires stream { IsStream end.old.kind (end.old.sent ++ m ∷ []) }
        ensures { MatchResult result (λ _. Pushed end.old m end.new) (CameBack end.old m end.new) }
    {
        let slots = self.slots;
        let place = end.next;
        let line = place * WORDS_A_LINE;
        let steps = &self.table.shared;
        let found = steps.load::<LooksForRoom>(&mut end.seat, line);
        if found >= CONSUMER {
            return Err(Full(m));
        }
        let word = word_of(m.body.ty(), true);
        let _empty = steps.exchange(&mut end.seat, place, Some(m));
        steps.store::<Sends>(&mut end.seat, line, word);
        end.next = place_after(place, slots);
        Ok(())
    }
}
