//! What holds of a carrier, wherever its steps have led it.
ghost use Rattle.mesh_channel.specs.Laws.{BeginCarrying, GoOnCarrying, KeepKind, HaveEnds, HaveOneUnderWay, AreIdle, ReceiveInOrder, NeverStuck, HaveRoom, LeadOnce, RefuseRightly};
ghost use Rattle.mesh_channel.specs.Left.{CountDown, AreBusy};

/// A new carrier carries nothing, and each step keeps a carrier carrying, to a port of the same kind: a take, a move and a
/// put for the same lists. What is received is the next of what was sent.
pub fn each_step_keeps_what_a_carrier_carries()
    ensures begin { BeginCarrying }
    ensures go_on { GoOnCarrying }
    ensures kind { KeepKind }
    ensures ends { HaveEnds }
    ensures in_order { ReceiveInOrder }
{}

/// What was sent and not received is told by the carrier alone, and is nothing exactly where the carrier is idle.
pub fn one_list_is_under_way_on_a_carrier()
    ensures one_list { HaveOneUnderWay }
    ensures none { AreIdle }
{}

/// While something is under way, a message can be taken, a byte moved, a message put, or one received; and while nothing
/// is, any message can be sent.
pub fn no_carrier_is_stuck()
    ensures goes_on { NeverStuck }
    ensures has_room { HaveRoom }
{}

/// Each step leads to one carrier, so that what steps leave is told by them.
pub fn each_step_leads_to_one_carrier()
    ensures { LeadOnce }
{}

/// A step that is refused leads nowhere and changes nothing.
pub fn a_step_that_is_refused_leads_nowhere()
    ensures { RefuseRightly }
{}

/// How many steps are left between the ends is one number of the carrier and of what is under way: a take and a put lower
/// it by one, and a move by the bytes moved.
pub fn so_many_inner_steps_are_left()
    ensures counts { CountDown }
    ensures busy { AreBusy }
{}
