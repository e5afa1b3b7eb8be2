ghost use Rattle.std.specs.Prelude.{◌≡◌};
ghost use Rattle.sb_intro.specs.Expected.{expected};

use crate::intro::Intro;
use cs_base::port_kind::PortKind;
use cs_base::time::Time;

const BAR_LEN: u64 = 131_072;

/// The introduction that a port of kind `sender` sends on a channel of this latency and interval.
pub fn expected(sender: PortKind, latency: Time, interval: Time) -> Intro
    ensures { result ≡ expected sender latency interval }
{
    Intro {
        version: 1,
        kind: sender,
        latency: latency.picoseconds(),
        interval: interval.picoseconds(),
        bar_len: match sender {
            PortKind::PcieDev => BAR_LEN,
            _ => 0,
        },
    }
}
