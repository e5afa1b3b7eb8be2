use cs_base::PeerReason;
use lane_kernels::differ::Differ;
use thiserror::Error;

/// Why a run on workers ended before its time.
#[derive(Clone, Copy, Debug, Drop, Error, PartialEq, Eq)]
pub enum MeshBad {
    /// The wire of a channel failed, or ended.
    #[error("link lost {channel}")]
    Lost {
        channel: u32,
    },
    /// What came in on a channel can't be, from this byte on.
    #[error("bad peer {channel} {offset}")]
    Peer {
        channel: u32,
        offset: u64,
        reason: PeerReason,
    },
    /// What came in on a channel is not what went out.
    #[error("link differs {channel} {}", .differ.offset)]
    Differs {
        channel: u32,
        differ: Differ,
    },
    /// Memory is wanting.
    #[error("no memory")]
    NoMemory,
}
