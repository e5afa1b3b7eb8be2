//! What holds of channels' ends that stand behind components on workers.
ghost use Rattle.proxy_crew.specs.Engaging.{EngagedKeepComponents, EngagedAreSound, RoundsKeepEnds};

use cs_base::wires::{WireIn, WireOut};
use worker_rounds::Member;

/// Of the components nothing changed when the ends came, and where they and the ends may make turns, all members may.
/// Rounds leave the same ends behind the components: what a sending end took out of its queue stands as frames among the
/// bytes that were to go, what a receiving end put into its queue is the beginning of the messages of those that came, and
/// of each fault it is known who met it and why.
pub fn ends_stay_engaged<C: Member, O: WireOut, I: WireIn>()
    ensures components { EngagedKeepComponents C O I }
    ensures sound { EngagedAreSound C.fits O.seen I.seen }
    ensures rounds { RoundsKeepEnds C.does C.fails C.fits O.seen I.seen }
{}
