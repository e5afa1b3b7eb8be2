ghost use Rattle.std.specs.Prelude.{MatchOption, IfSome};
ghost use Rattle.proxy_members.specs.Differing.{AreInOrder, AllAgree, AgreeBelow, IsFirstToDiffer};

use cs_base::wire_end::WireEnd;
use tcp_proxy::{Differ, compare};

/// The first of these channels at which what came is not a beginning of what was sent, and the first place where it isn't.
/// Where they stand in the order of their numbers it is the least.
pub fn first_that_differs<O, I>(ends: &[WireEnd<O, I>]) -> Option<(u32, Differ)>
    ensures first { MatchOption result (AllAgree ends.now)
        (λ found. IsFirstToDiffer ends.now found.0 found.1) }
    ensures least { AreInOrder ends.now → IfSome result (λ found. AgreeBelow ends.now found.0) }
{
    for end in ends {
        if let Some(differ) = compare(end.sent.as_slice(), end.got.as_slice()) {
            return Some((end.channel, differ));
        }
    }
    None
}
