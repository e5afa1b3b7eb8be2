ghost use Rattle.std.specs.Prelude.{◌≡◌};
ghost use Rattle.tcp_proxy.specs.Sending.{IsFitOut, TakesSo};

use cs_base::no_memory::NoMemory;
use port_queue::RxPort;
use sb_frame::{LONGEST_FRAME, frame_reserved};

/// Pops messages, 1,024 at most, until none is there, and says how many. There is room for each before it is popped, so
/// that none is lost where memory is wanting.
pub(crate) fn take_all<R: RxPort>(kept: &mut Vec<u8>, near: &mut R) -> Result<usize, NoMemory>
    requires { IsFitOut R.kind R.stands kept.old.items near.old }
    ensures { TakesSo R.kind R.stands R.pops R.empties kept.old.items near.old kept.new.items
        near.new result }
{
    for taken in 0..1024usize {
        kept.reserve(LONGEST_FRAME)?;
        let Some(m) = near.pop() else {
            return Ok(taken);
        };
        frame_reserved(&m, kept);
    }
    Ok(1024)
}
