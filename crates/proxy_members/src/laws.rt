//! What holds of the ends of a channel, however often they are turned.
ghost use Rattle.std.specs.Prelude.{ℕ};
ghost use Rattle.worker_rounds.specs.declared.mesh_bad.MeshBad.{MeshBad as Fault};
ghost use Rattle.worker_rounds.specs.Passes.{Went};
ghost use Rattle.proxy_members.specs.declared.out_member.OutMember.{OutMember as Sending};
ghost use Rattle.proxy_members.specs.declared.in_member.InMember.{InMember as Receiving};
ghost use Rattle.proxy_members.specs.Outward.{OutFits, OutDid, OutFailed, OutWent, OutSays};
ghost use Rattle.proxy_members.specs.Inward.{InFits, InHolds, InDid, InFailed, InWent, InSays};

use cs_base::wires::{WireIn, WireOut};

/// Turns of a sending end that meet no fault leave the kept bytes the frames of all that was taken out of the near queue,
/// add to both, and keep what was taken out a stream.
pub fn turns_of_a_sending_end<O: WireOut>()
    ensures went { (old new : Sending O) (n : ℕ) → Went (OutDid O.seen) old n new
        → OutWent old new }
    ensures fits { (old new : Sending O) (n : ℕ) → Went (OutDid O.seen) old n new
        → OutFits O.seen old → OutFits O.seen new }
{}

/// So does a turn that meets a fault. The fault is want of memory, or that the channel is lost, which the wire's count of
/// faults shows.
pub fn a_failed_sending_end_keeps_what_it_popped<O: WireOut>()
    ensures went { (old new : Sending O) (fault : Fault) → OutFailed O.seen old fault new
        → OutWent old new }
    ensures fits { (old new : Sending O) (fault : Fault) → OutFailed O.seen old fault new
        → OutFits O.seen old → OutFits O.seen new }
    ensures says { (old new : Sending O) (fault : Fault) → OutFailed O.seen old fault new
        → OutSays O.seen new fault }
{}

/// Turns of a receiving end that meet no fault add to the kept bytes and to what was put into the far queue, and leave it
/// fit for more.
pub fn turns_of_a_receiving_end<I: WireIn>()
    ensures went { (old new : Receiving I) (n : ℕ) → Went (InDid I.seen) old n new
        → InWent old new }
    ensures fits { (old new : Receiving I) (n : ℕ) → Went (InDid I.seen) old n new
        → InFits I.seen old → InFits I.seen new }
{}

/// What a receiving end that is fit has put into the far queue is the beginning of the messages of the kept bytes.
pub fn a_receiving_end_pushes_what_it_keeps<I: WireIn>()
    ensures { (member : Receiving I) → InFits I.seen member → InHolds I.seen member }
{}

/// So it is after a turn that meets a fault. The fault is want of memory, or that the channel is lost, which the wire's
/// count of faults or its end shows, or the first fault of the kept bytes.
pub fn a_failed_receiving_end_keeps_what_it_pushed<I: WireIn>()
    ensures went { (old new : Receiving I) (fault : Fault) → InFailed I.seen old fault new
        → InWent old new }
    ensures holds { (old new : Receiving I) (fault : Fault) → InFailed I.seen old fault new
        → InFits I.seen old → InHolds I.seen new }
    ensures says { (old new : Receiving I) (fault : Fault) → InFailed I.seen old fault new
        → InFits I.seen old → InSays I.seen new fault }
{}
