//! What holds of a mesh however it is stepped.
ghost use Rattle.mesh_core.specs.Laws.{StartsStanding, StepsKeepIt, LogsBegin, ListsBegin, LogsAreWhole, ListsAreWhole, LeavesLogs, LeavesCounts, NeverStuck};
ghost use Rattle.mesh_core.specs.ToCome.{StepsLowerIt, NoneIsToCome, IsOneNumber};
ghost use Rattle.mesh_core.specs.Walk.{WalksLowerIt};

use device_api::Device;

/// A new mesh is a mesh of its system.
pub fn a_new_mesh_stands<V: Device>()
    ensures { StartsStanding V.behaviour V.settled }
{}

/// A step that a mesh of a system makes leaves a mesh of that system. A new mesh is one, so that each mesh is, after
/// whatever steps.
pub fn each_step_keeps_a_mesh_standing<V: Device>()
    ensures { StepsKeepIt V.behaviour V.settled }
{}

/// However a mesh is stepped: the log of each component begins its log of the global run, and what was sent on each
/// channel begins the transcript of the global run's sends.
pub fn a_mesh_begins_the_global_run<V: Device>()
    ensures logs { LogsBegin V.behaviour V.settled }
    ensures lists { ListsBegin V.behaviour V.settled }
{}

/// Where all components have ended each log is that of the global run, and what was sent on each channel is the
/// transcript of the global run's sends. The outcome that a mesh then leaves is that of the global run.
pub fn an_ended_mesh_is_the_global_run<V: Device>()
    ensures logs { LogsAreWhole V.behaviour V.settled }
    ensures lists { ListsAreWhole V.behaviour V.settled }
    ensures leaves_logs { LeavesLogs V.behaviour V.settled }
    ensures leaves_counts { LeavesCounts V.behaviour V.settled }
{}

/// Nothing is stuck: in each mesh of which not all components have ended some step is enabled.
pub fn no_mesh_is_stuck<V: Device>()
    ensures { NeverStuck V.behaviour V.settled }
{}

/// How many steps of a mesh are to come is one number of it, whatever system it is taken for. Each step that is made lowers
/// it by exactly one, in whatever order they come; and none is to come exactly where all is processed and received.
pub fn so_many_steps_are_to_come<V: Device>()
    ensures one_less { StepsLowerIt V.behaviour V.settled }
    ensures none { NoneIsToCome V.behaviour V.settled }
    ensures one_number { IsOneNumber V.behaviour V.settled }
{}

/// So many steps, one after another, leave a mesh of the system, of which so many less are to come.
pub fn a_walk_keeps_a_mesh_standing<V: Device>()
    ensures { WalksLowerIt V.behaviour V.settled }
{}
