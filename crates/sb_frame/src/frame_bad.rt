use cs_base::no_memory::NoMemory;
use sb_message::MsgBad;
use thiserror::Error;

/// The first fault of a byte stream: the first of these that holds of the first frame that is none. The offset is the
/// place in the stream, in bytes, at which that frame starts.
#[derive(Clone, Copy, Debug, PartialEq, Eq, Error)]
pub enum FrameBad {
    /// The length in the frame's first four bytes is not 64 to 2,112. Its fourth byte decides this; the frame's last
    /// byte decides all others.
    #[error("frame at {offset}: length")]
    Length { offset: u64 },
    /// The frame's bytes are no message that the port may receive.
    #[error("frame at {offset}: {bad}")]
    Message { offset: u64, bad: MsgBad },
    /// The message's timestamp is less than that of the one before.
    #[error("frame at {offset}: time falls")]
    Falls { offset: u64 },
    /// The first frame is no introduction, or a later one is.
    #[error("frame at {offset}: order")]
    Order { offset: u64 },
    /// Memory is wanting. This is no fault of the stream.
    #[error("no memory")]
    NoMemory,
}

impl From<NoMemory> for FrameBad {
    ghost use Rattle.std.specs.Prelude.{◌≡◌};
    ghost use Rattle.sb_frame.specs.declared.frame_bad.FrameBad.TheVariants as bad;

    ghost from_gives = { λ _ b. b ≡ bad.NoMemory };

    fn from(_error: NoMemory) -> FrameBad {
        FrameBad::NoMemory
    }
}
