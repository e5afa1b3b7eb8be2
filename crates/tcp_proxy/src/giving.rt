ghost use Rattle.std.specs.Prelude.{◌≡◌, ◌∷◌, [], ◌++◌, List, ℕ, None, MatchOption};
ghost use Rattle.sb_message.specs.declared.message.Msg.{Msg};
ghost use Rattle.sb_frame.specs.Deframing.{Stands};
ghost use Rattle.tcp_proxy.specs.Receiving.{Carries, Gives, IsFitIn, IsNextOut, IsPushedOut};

use port_queue::{Full, TxPort};
use sb_frame::Deframer;
use sb_message::Msg;

/// The message that is next to be pushed: the one that is held, or else the first that waits.
fn next_out(frames: &mut Deframer, held: &mut Option<Msg>) -> Option<Msg>
    ensures { MatchOption result
        (IsPushedOut frames.old held.old × (frames.new ≡ frames.old) × (held.new ≡ held.old))
        (λ m. IsNextOut frames.old held.old m frames.new held.new) }
{
    match held.take() {
        Some(m) => Some(m),
        None => frames.next(),
    }
}

// The message that a full queue gave back.
fn message_of(full: Full) -> Msg
    ensures { result ≡ full.0 }
{
    let Full(m) = full;
    m
}

/// Pushes what waits, 1,024 messages at most, until none does or the queue is full, and says how many.
pub(crate) fn push_all<T: TxPort>(
    frames: &mut Deframer,
    held: &mut Option<Msg>,
    far: &mut T,
) -> usize
    requires { (stream : List ℕ) × IsFitIn T.kind T.stands frames.old held.old stream far.old }
    ensures { Gives T.kind T.stands T.pushes T.refuses frames.old held.old far.old
        frames.new held.new far.new result }
{
    for pushed in 0..1024usize {
        let Some(m) = next_out(frames, held) else {
            return pushed;
        };
        if let Err(full) = far.push(m) {
            *held = Some(message_of(full));
            return pushed;
        }
    }
    1024
}
