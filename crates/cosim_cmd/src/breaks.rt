//! Why a run is broken off.
ghost use Rattle.cosim_cmd.specs.Broken.{Tells, TellsFault};

use crate::line::break_line;
use crate::refusal::OutputBad;
use cs_base::{NoMemory, PeerReason};
use run_threads::MeshBad;
use std::alloc::Global;

/// What broke off a run, on which channel by proxy.
#[derive(Debug, Drop)]
pub enum Break {
    /// The channel's wire can't be had, or it failed or ended.
    Lost {
        channel: u32,
    },
    /// What came can't be, from this byte on.
    Peer {
        channel: u32,
        offset: u64,
        reason: PeerReason,
    },
    /// What came is not what was sent, from this byte on.
    Differs {
        channel: u32,
        offset: u64,
    },
}

/// The refusal of a run that is broken off.
pub fn broken(alloc: Global, cause: Break) -> OutputBad
    ensures { Tells cause result }
{
    match break_line(alloc, &cause) {
        Ok(line) => OutputBad::Broken { cause, line },
        Err(NoMemory) => OutputBad::NoMemory,
    }
}

/// The refusal of a run that ended with a fault.
pub fn faulted(alloc: Global, fault: MeshBad) -> OutputBad
    ensures { TellsFault fault result }
{
    match fault {
        MeshBad::Lost { channel } => broken(alloc, Break::Lost { channel }),
        MeshBad::Peer {
            channel,
            offset,
            reason,
        } => broken(
            alloc,
            Break::Peer {
                channel,
                offset,
                reason,
            },
        ),
        MeshBad::Differs { channel, differ } => broken(
            alloc,
            Break::Differs {
                channel,
                offset: differ.offset,
            },
        ),
        MeshBad::NoMemory => OutputBad::NoMemory,
    }
}
