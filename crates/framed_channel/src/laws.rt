ghost use Rattle.std.specs.Prelude.{ℕ, ◌≡◌};
ghost use Rattle.framed_channel.specs.Channel.{Framed};
ghost use Rattle.framed_channel.specs.Laws.{RunWell, BeginCarrying, GoOnCarrying, HasOneUnderWay, AreNeverStuck};
ghost use Rattle.framed_channel.specs.Left.{AreCounted};

/// After whatever steps from an unused channel on, its deframer has met no fault, and what was received, and then what
/// is under way, is what was sent, in order.
pub fn nothing_is_lost()
    ensures { RunWell }
{}

/// What is under way is told by the channel alone: it is one list.
pub fn one_list_is_under_way()
    ensures { (channel : Framed) → HasOneUnderWay channel }
{}

/// While something is under way, a message can be taken, a byte moved, a message put, or one received.
pub fn no_channel_is_stuck()
    ensures { AreNeverStuck }
{}

/// An unused channel carries nothing, and each step keeps a channel carrying: a take, a move and a put for the same lists.
pub fn each_step_keeps_what_is_carried()
    ensures begin { BeginCarrying }
    ensures go_on { GoOnCarrying }
{}

/// How many steps of a channel are left is one number: a take, a put and a receipt lower it by one, a move by the bytes
/// moved, and a message that is sent raises it by what is to be done with it. It is 0 only where all is received.
pub fn so_many_steps_are_left()
    ensures { AreCounted }
{}
