//! What rounds of all members are for those of one sort.
ghost use Rattle.crew_members.specs.Hands.{HandIs, HandDid, HandFailed, component_of, sending_of, receiving_of};
ghost use Rattle.crew_members.specs.Sorts.{RoundsAre, RoundsTellWho};

use worker_rounds::Member;

/// Rounds that meet no fault are rounds of the components: these are fit where all are, and ended where all have. In rounds
/// that meet one, too, each component makes turns, of which the last may fail.
pub fn rounds_of_components<C: Member, O: Member, I: Member>()
    ensures { RoundsAre component_of C.does C.fails C.fits C.ended
        (HandDid C.does O.does I.does) (HandFailed C.fails O.fails I.fails)
        (HandIs C.fits O.fits I.fits) (HandIs C.ended O.ended I.ended) }
{}

/// So they are for the sending ends.
pub fn rounds_of_sending_ends<C: Member, O: Member, I: Member>()
    ensures { RoundsAre sending_of O.does O.fails O.fits O.ended
        (HandDid C.does O.does I.does) (HandFailed C.fails O.fails I.fails)
        (HandIs C.fits O.fits I.fits) (HandIs C.ended O.ended I.ended) }
{}

/// So they are for the receiving ends.
pub fn rounds_of_receiving_ends<C: Member, O: Member, I: Member>()
    ensures { RoundsAre receiving_of I.does I.fails I.fits I.ended
        (HandDid C.does O.does I.does) (HandFailed C.fails O.fails I.fails)
        (HandIs C.fits O.fits I.fits) (HandIs C.ended O.ended I.ended) }
{}

/// A fault that a worker keeps was met by a component, by a sending end or by a receiving end: by its turn after so many
/// that met none.
pub fn a_fault_was_met_by_one<C: Member, O: Member, I: Member>()
    ensures { RoundsTellWho C.does O.does I.does C.fails O.fails I.fails
        (HandIs C.fits O.fits I.fits) }
{}
