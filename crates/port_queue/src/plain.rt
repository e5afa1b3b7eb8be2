ghost use Rattle.std.specs.Prelude.{◌≡◌, ◌≤◌, [], length, IfOk};
ghost use Rattle.port_queue.specs.Plain.{Plain, StandsForSent, StandsForReceived, Pushes, Refuses, Pops, Empties};
ghost use Rattle.port_queue.specs.PlainLaws.{push_adds, push_kind, refusal_keeps, refusal_kind, pop_adds, pop_streams, pop_kind, empty_keeps, empty_kind};

use crate::ports::{Full, RxPort, TxPort};
use cs_base::no_memory::NoMemory;
use cs_base::port_kind::PortKind;
use cs_base::queue::Queue;
use sb_message::Msg;
use std::alloc::Global;
use std::marker::Model;

/// A queue of a fixed number of places. It is both ends of a channel on one thread.
#[derive(Debug, Drop)]
pub struct PlainQueue {
    kind: PortKind,
    slots: u32,
    held: Queue<Msg>,
}

impl Model for PlainQueue {
    ghost use Rattle.std.specs.Prelude.{◌+◌, ◌≤◌, length};
    ghost use Rattle.port_queue.specs.Plain.{Plain};

    ghost Value = { Plain };

    ghost view = { λ queue. record { kind = queue.kind; slots = queue.slots; held = queue.held.items } };

    ghost invariant = { λ queue. (length queue.held.items ≤ queue.slots)
        × (queue.slots ≤ length queue.held.items + queue.held.spare) };
}

impl PlainQueue {
    /// An empty queue of 1 to 1,024 places, whose messages a port of the kind receives. It takes all of its
    /// memory here.
    pub fn new(alloc: Global, slots: u32, kind: PortKind) -> Result<PlainQueue, NoMemory>
        requires { (1 ≤ slots) × (slots ≤ 1024) }
        ensures { IfOk result (λ queue. queue ≡ record { kind = kind; slots = slots; held = [] }) }
    {
        let mut held = Queue::new(alloc);
        held.reserve(slots as usize)?;
        Ok(PlainQueue { kind, slots, held })
    }

    /// How many messages it holds.
    pub fn len(&self) -> usize
        ensures { result ≡ length self.now.held }
    {
        self.held.len()
    }
}

impl TxPort for PlainQueue {
    ghost kind = { λ queue. queue.kind };

    ghost stands = { StandsForSent };

    ghost pushes = { Pushes };

    ghost refuses = { Refuses };

    ghost push_adds = { push_adds };

    ghost push_kind = { push_kind };

    ghost refusal_keeps = { refusal_keeps };

    ghost refusal_kind = { refusal_kind };

    fn push(&mut self, m: Msg) -> Result<(), Full> {
        if self.held.len() < self.slots as usize {
            self.held.push_reserved(m);
            Ok(())
        } else {
            Err(Full(m))
        }
    }
}

impl RxPort for PlainQueue {
    ghost kind = { λ queue. queue.kind };

    ghost stands = { StandsForReceived };

    ghost pops = { Pops };

    ghost empties = { Empties };

    ghost pop_adds = { pop_adds };

    ghost pop_streams = { pop_streams };

    ghost pop_kind = { pop_kind };

    ghost empty_keeps = { empty_keeps };

    ghost empty_kind = { empty_kind };

    fn pop(&mut self) -> Option<Msg> {
        self.held.pop()
    }
}
