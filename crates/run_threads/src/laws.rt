//! What holds of a crew, however its threads run.
ghost use Rattle.run_threads.specs.Merging.{SidesMerge};
ghost use Rattle.run_threads.specs.Proxied.{AreNewByQueue, NearIsFar};
ghost use Rattle.run_threads.specs.Laws.{RoundsKeepIt, LeavesRun, AreSeated, RoundsIntroduce, FaultsHaveCause, WhateverComes};

use device_api::Device;

/// Rounds that meet no fault keep a crew one of its system: its runners and its ends of channels stand for the same lists,
/// and its ends are of the same queues.
pub fn rounds_keep_a_crew_standing<V: Device>()
    ensures { RoundsKeepIt V.behaviour V.settled }
{}

/// Where all components of a crew have ended, and on each channel the first part of what was sent was received, what it
/// leaves is what the global run leaves: the logs, the counts of the channels, and on each channel its transcript.
pub fn an_ended_crew_leaves_the_global_run<V: Device>()
    ensures { LeavesRun V.behaviour V.settled }
{}

/// The parts of a crew are seated, so that it may be taken apart.
pub fn a_crew_is_seated<V: Device>()
    ensures { AreSeated V.behaviour V.settled }
{}

/// After rounds, whether they met a fault or not, what was sent on each channel is nothing, or begins with the channel's
/// introduction.
pub fn rounds_send_introductions_first<V: Device>()
    ensures { RoundsIntroduce V.behaviour V.settled }
{}

/// Where the first fault that rounds met is a wrong introduction, one message was received on that channel, and it isn't
/// the introduction. Else it is want of memory.
pub fn a_fault_has_its_cause<V: Device>()
    ensures { FaultsHaveCause V.behaviour V.settled }
{}

/// However the turns of the parts ended, of which any may have failed, they stay seated, and what was sent on each channel
/// is nothing, or begins with the channel's introduction. A fault that one of them met has its cause. So it is where
/// another member of a worker met the fault, too.
pub fn whatever_comes_leaves_parts_seated<V: Device>()
    ensures { WhateverComes V.behaviour V.settled }
{}

/// Where no link goes by proxy, the queues of all channels are one for each channel, into which its sender pushes and out of
/// which its receiver pops.
pub fn queues_without_proxies_are_one_a_channel()
    ensures queues { AreNewByQueue }
    ensures places { NearIsFar }
{}

/// The sides of near and far queues that the components have, and those between near and far queues, put in the order of
/// all queues, are sides of these queues, and those of each channel stand at its queues' places.
pub fn sides_merge()
    ensures { SidesMerge }
{}
