ghost use Rattle.std.specs.Prelude.{◌≡◌, ◌↔◌, ◌∷◌, ◌++◌, [], IsTrue, IfSome, IfNone, OnOk};
ghost use Rattle.global_model.specs.Inboxes.{StartsOff, first_time, message_at};

use cs_base::no_memory::NoMemory;
use cs_base::queue::Queue;
use cs_base::time::Time;
use sb_message::{Body, Msg};
use std::alloc::Global;
use std::marker::Model;

/// What waits at a port, in the order of sending.
#[derive(Drop)]
pub struct Inbox {
    waiting: Queue<Msg>,
}

impl Model for Inbox {
    ghost use Rattle.std.specs.Prelude.{List};
    ghost use Rattle.sb_message.specs.declared.message.Msg.{Msg as Message};

    ghost Value = { List Message };

    ghost view = { λ i. i.waiting.items };
}

impl Inbox {
    pub fn new(alloc: Global) -> Inbox
        ensures { result ≡ [] }
    {
        Inbox {
            waiting: Queue::new(alloc),
        }
    }

    pub fn push(&mut self, message: Msg) -> Result<(), NoMemory>
        ensures { OnOk result (self.new ≡ self.old ++ message ∷ []) }
    {
        self.waiting.push(message)
    }

    /// The time of the first message.
    pub fn first_at(&self) -> Option<Time>
        ensures { result ≡ first_time self.now }
    {
        match self.waiting.first() {
            Some(message) => Some(message.at),
            None => None,
        }
    }

    pub fn is_empty(&self) -> bool
        ensures { IsTrue result ↔ (self.now ≡ []) }
    {
        self.waiting.is_empty()
    }

    /// Takes the first message where it has this time.
    pub fn take_at(&mut self, t: Time) -> Option<Body>
        ensures first { IfSome result (λ body. self.old ≡ message_at t body ∷ self.new) }
        ensures none { IfNone result (self.new ≡ self.old) }
        ensures starts_off { IfNone result (StartsOff t self.old) }
    {
        match self.waiting.first() {
            Some(message) if message.at == t => {}
            _ => return None,
        }
        let Msg { at: _, body } = self.waiting.pop()?;
        Some(body)
    }
}
