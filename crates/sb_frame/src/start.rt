ghost use Rattle.std.specs.Prelude.{◌≡◌, ◌≤◌, ◌++◌, length, take, IfOk, OnErr};
ghost use Rattle.sb_frame.specs.Frames.{is_length, IsOpen};
ghost use Rattle.sb_frame.specs.Starts.{Begins, TopsUp};

use cs_base::items::Octets;
use cs_base::no_memory::NoMemory;
use field_layout::u32_at;

/// The bytes of a frame's length.
pub(crate) const HEADER: usize = 4;

const SHORTEST: usize = 64;

const LONGEST: usize = 2112;

/// What is at the start of some bytes.
#[derive(Clone, Copy, Debug, PartialEq, Eq)]
pub(crate) enum Start {
    /// A frame that goes on behind them.
    Open,
    /// Four bytes that are the length of no message.
    Wrong,
    /// A whole frame, with a message of so many bytes.
    Whole(usize),
}

fn is_length(bytes: usize) -> bool
    ensures { result ≡ is_length bytes }
{
    SHORTEST <= bytes && bytes <= LONGEST
}

/// What is at the start of the bytes.
pub(crate) fn start_of(bytes: &[u8]) -> Start
    ensures { Begins bytes.now result }
{
    if bytes.len() < HEADER {
        return Start::Open;
    }
    let size = u32_at(bytes, 0) as usize;
    if !is_length(size) {
        Start::Wrong
    } else if bytes.len() - HEADER < size {
        Start::Open
    } else {
        Start::Whole(size)
    }
}

/// Moves bytes from the front of a piece to a frame that is begun, as many as decide it, and says how many.
pub(crate) fn top_up(begun: &mut Octets, piece: &[u8]) -> Result<usize, NoMemory>
    requires { IsOpen begun.old }
    ensures ok { IfOk result (λ n. TopsUp begun.old piece.now begun.new n) }
    ensures err { OnErr result (take (length begun.old) begun.new ≡ begun.old) }
{
    let header = HEADER.saturating_sub(begun.len()).min(piece.len());
    begun.append(&piece[..header])?;
    match start_of(begun.as_slice()) {
        Start::Open if header < piece.len() => {
            let size = u32_at(begun.as_slice(), 0) as usize;
            let body = (HEADER + size - begun.len()).min(piece.len() - header);
            begun.append(&piece[header..header + body])?;
            Ok(header + body)
        }
        _ => Ok(header),
    }
}
