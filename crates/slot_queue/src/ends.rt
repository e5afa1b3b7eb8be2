ghost use Rattle.std.specs.Prelude.{◌≡◌};
ghost use Rattle.slot_queue.specs.Ends.{Pushed, Refused, Popped, Emptied};
ghost use Rattle.slot_queue.specs.EndLaws.{push_adds, push_kind, refusal_keeps, refusal_kind, pop_adds, pop_streams, pop_kind, empty_keeps, empty_kind};

use crate::consumer::Consumer;
use crate::producer::Producer;
use crate::queue::SlotQueue;
use port_queue::{Full, RxPort, TxPort};
use sb_message::Msg;

/// The end of a queue at which messages are sent.
#[derive(Drop)]
pub struct TxEnd<'q> {
    pub queue: &'q SlotQueue,
    pub seat: Producer,
    pub ghost ours: { seat.queue ≡ queue.now.name },
}

/// The end of a queue at which messages are received.
#[derive(Drop)]
pub struct RxEnd<'q> {
    pub queue: &'q SlotQueue,
    pub seat: Consumer,
    pub ghost ours: { seat.queue ≡ queue.now.name },
}

impl<'q> TxPort for TxEnd<'q> {
    ghost kind = { λ a. a.seat.kind };

    ghost stands = { λ a sent. a.seat.sent ≡ sent };

    ghost pushes = { λ a m b. Pushed a.seat m b.seat };

    ghost refuses = { λ a b. Refused a.seat b.seat };

    ghost push_adds = { λ a b m sent pushed is stream. push_adds a.seat b.seat m sent pushed is };

    ghost push_kind = { λ a b m pushed. push_kind a.seat b.seat m pushed };

    ghost refusal_keeps = { λ a b sent refused is. refusal_keeps a.seat b.seat sent refused is };

    ghost refusal_kind = { λ a b refused. refusal_kind a.seat b.seat refused };

    fn push(&mut self, m: Msg) -> Result<(), Full> {
        self.queue.push(&mut self.seat, m)
    }
}

impl<'q> RxPort for RxEnd<'q> {
    ghost kind = { λ a. a.seat.kind };

    ghost stands = { λ a received. a.seat.received ≡ received };

    ghost pops = { λ a m b. Popped a.seat m b.seat };

    ghost empties = { λ a b. Emptied a.seat b.seat };

    ghost pop_adds = { λ a b m received popped is. pop_adds a.seat b.seat m received popped is };

    ghost pop_streams = { λ a b m received popped is. pop_streams a.seat b.seat m received popped is };

    ghost pop_kind = { λ a b m popped. pop_kind a.seat b.seat m popped };

    ghost empty_keeps = { λ a b received emptied is. empty_keeps a.seat b.seat received emptied is };

    ghost empty_kind = { λ a b emptied. empty_kind a.seat b.seat emptied };

    fn pop(&mut self) -> Option<Msg> {
        self.queue.pop(&mut self.seat)
    }
}
