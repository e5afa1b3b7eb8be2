ghost use Rattle.std.specs.Prelude.{◌≡◌};
ghost use Rattle.proxy_crew.specs.Dialing.{bad_of};

use crate::build_bad::BuildBad;
use cs_base::dialer::DialBad;

/// What a failed dial of a channel is for the whole crew.
pub(crate) fn bad_of(channel: u32, bad: DialBad) -> BuildBad
    ensures { result ≡ bad_of channel bad }
{
    match bad {
        DialBad::Failed => BuildBad::Lost { channel },
        DialBad::NoMemory => BuildBad::NoMemory,
    }
}
