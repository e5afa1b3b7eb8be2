ghost use Rattle.std.specs.Prelude.{◌≡◌, ◌++◌, ◌∷◌, [], List, MatchResult, MatchOption};
ghost use Rattle.cs_base.specs.declared.port_kind.PortKind.{PortKind};
ghost use Rattle.sb_message.specs.declared.message.Msg.{Msg};
ghost use Rattle.sb_message.specs.Stream.{IsStream};
ghost use Rattle.port_queue.specs.Port.{IsNextSent};

use sb_message::Msg;

/// The message that a port could not send, since its channel is full.
#[derive(Debug, Drop)]
pub struct Full(pub Msg);

/// The sending end of a channel. It stands for the list of the messages that it has sent, which need not be
/// stored anywhere. A push is a single try and never waits.
pub trait TxPort {
    /// The kind of the port at which the channel's messages are received.
    ghost kind: { Self → PortKind };

    /// That the port stands for a list sent.
    ghost stands: { Self → List Msg → Type 0 };

    /// What a push leaves that sends the message.
    ghost pushes: { Self → Msg → Self → Type 0 };

    /// What a push leaves that finds the channel full.
    ghost refuses: { Self → Self → Type 0 };

    /// Sends a message, or gives it back where the channel is full.
    fn push(&mut self, m: Msg) -> Result<(), Full>
        requires { IsNextSent (kind self.old) (stands self.old) m }
        ensures { MatchResult result (λ _. pushes self.old m self.new)
            (λ back. (back.0 ≡ m) × refuses self.old self.new) };

    /// The message that was pushed is at the end of the list sent.
    ghost push_adds: { (a b : Self) (m : Msg) (sent : List Msg) → pushes a m b → stands a sent
        → IsStream (kind a) (sent ++ m ∷ []) → stands b (sent ++ m ∷ []) };

    ghost push_kind: { (a b : Self) (m : Msg) → pushes a m b → kind b ≡ kind a };

    ghost refusal_keeps: { (a b : Self) (sent : List Msg) → refuses a b → stands a sent
        → stands b sent };

    ghost refusal_kind: { (a b : Self) → refuses a b → kind b ≡ kind a };
}

/// The receiving end of a channel. It stands for the list of the messages that were received from it. A pop is
/// a single try and never waits.
pub trait RxPort {
    /// The kind of the port at which the channel's messages are received.
    ghost kind: { Self → PortKind };

    /// That the port stands for a list received.
    ghost stands: { Self → List Msg → Type 0 };

    /// What a pop leaves that gives a message.
    ghost pops: { Self → Msg → Self → Type 0 };

    /// What a pop leaves that finds no message.
    ghost empties: { Self → Self → Type 0 };

    /// Receives a message; None where none is there.
    fn pop(&mut self) -> Option<Msg>
        ensures { MatchOption result (empties self.old self.new) (λ m. pops self.old m self.new) };

    /// The message that was popped is at the end of the list received.
    ghost pop_adds: { (a b : Self) (m : Msg) (received : List Msg) → pops a m b → stands a received
        → stands b (received ++ m ∷ []) };

    /// What is received is a stream of the port's kind.
    ghost pop_streams: { (a b : Self) (m : Msg) (received : List Msg) → pops a m b → stands a received
        → IsStream (kind a) (received ++ m ∷ []) };

    ghost pop_kind: { (a b : Self) (m : Msg) → pops a m b → kind b ≡ kind a };

    ghost empty_keeps: { (a b : Self) (received : List Msg) → empties a b → stands a received
        → stands b received };

    ghost empty_kind: { (a b : Self) → empties a b → kind b ≡ kind a };
}
