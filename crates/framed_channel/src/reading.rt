ghost use Rattle.std.specs.Prelude.{◌≡◌, OnOk, OnErr};
ghost use Rattle.framed_channel.specs.Steps.{Reads};
ghost use Rattle.framed_channel.specs.Standing.{MayRead};

use cs_base::no_memory::NoMemory;
use sb_frame::Deframer;

/// Reads a piece of the frames of messages that may be sent. No fault can be met there.
pub(crate) fn read_piece(frames: &mut Deframer, piece: &[u8]) -> Result<(), NoMemory>
    requires { MayRead frames.old piece.now }
    ensures ok { OnOk result (Reads frames.old piece.now frames.new) }
    ensures err { OnErr result (frames.new ≡ frames.old) }
{
    match frames.feed(piece) {
        Ok(()) => Ok(()),
        // The bytes have no fault, so memory is wanting.
        Err(_) => Err(NoMemory),
    }
}
