use cs_base::port_kind::PortKind;
use sb_message::Msg;
use std::collections::LinkedList;

/// What a seat of the queue knows. It exists in proofs alone: no value of it is made.
pub struct View {
    /// The receiver's kind of port.
    pub kind: PortKind,
    /// The seat is the producer's.
    pub sends: bool,
    /// The seat is the consumer's.
    pub takes: bool,
    /// All messages sent, in order.
    pub sent: LinkedList<Msg>,
    /// All messages received, in order.
    pub received: LinkedList<Msg>,
    /// The producer's turn is open: it has found its slot free, and hasn't given it away.
    pub filling: bool,
    /// The message that the consumer has found, while its turn is open.
    pub noted: Option<Msg>,
    /// How often the word of the next slot was the other side's.
    pub misses: u64,
}

/// What a queue is told once, when it is made.
#[derive(Clone, Copy)]
pub struct Plan {
    /// How many messages fit into it.
    pub slots: usize,
    /// The receiver's kind of port.
    pub kind: PortKind,
}
