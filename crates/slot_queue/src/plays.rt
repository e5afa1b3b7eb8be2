//! The rule of the queue, and the steps by which its two sides keep it. These types are for the proofs alone.

use crate::view::{Plan, View};
use atomic_table::{Join, Play, Split, TableRule};
use sb_message::Msg;

/// The words tell whose turn it is.
pub struct OwnerWords;

impl TableRule<Option<Msg>, View, Plan> for OwnerWords {
    ghost use Rattle.std.specs.Prelude.{[]};
    ghost use Rattle.slot_queue.specs.Rule.{Stands};
    ghost use Rattle.slot_queue.specs.Views.{owning};

    ghost holds = { Stands };

    ghost first = { λ plan. owning plan.kind [] [] 0 };
}

/// The producer loads a word.
pub struct LooksForRoom;

impl Play<Option<Msg>, View> for LooksForRoom {
    ghost use Rattle.slot_queue.specs.Plays.{LooksForRoom};

    ghost then = { LooksForRoom };
}

/// The producer stores a word.
pub struct Sends;

impl Play<Option<Msg>, View> for Sends {
    ghost use Rattle.slot_queue.specs.Plays.{Sends};

    ghost then = { Sends };
}

/// The consumer loads a word.
pub struct LooksForMessage;

impl Play<Option<Msg>, View> for LooksForMessage {
    ghost use Rattle.slot_queue.specs.Plays.{LooksForMessage};

    ghost then = { LooksForMessage };
}

/// The consumer stores a word.
pub struct Receives;

impl Play<Option<Msg>, View> for Receives {
    ghost use Rattle.slot_queue.specs.Plays.{Receives};

    ghost then = { Receives };
}

/// The seat of a new queue becomes the producer's, and a second one the consumer's.
pub struct Roles;

impl Split<View> for Roles {
    ghost use Rattle.slot_queue.specs.Views.{sending_part, taking_part};

    ghost left = { sending_part };

    ghost right = { taking_part };
}

impl Join<View> for Roles {
    ghost use Rattle.cs_base.specs.declared.port_kind.PortKind.TheVariants.{Eth};
    ghost use Rattle.std.specs.Prelude.{[]};
    ghost use Rattle.slot_queue.specs.Views.{joined, remembering, owning};

    ghost both = { joined };

    ghost spent = { remembering (owning Eth [] [] 0) };
}

/// A seat with no role is split off, which keeps both lists.
pub struct Memory;

impl Split<View> for Memory {
    ghost use Rattle.slot_queue.specs.Views.{remembering};

    ghost left = { λ view. view };

    ghost right = { remembering };
}
