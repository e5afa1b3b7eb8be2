ghost use Rattle.std.specs.Prelude.{◌≡◌};
ghost use Rattle.proxy_members.specs.Faults.{fault_of};

use cs_base::PeerReason;
use sb_frame::FrameBad;
use tcp_proxy::ProxyBad;
use worker_rounds::MeshBad;

/// The fault of an end of this channel, as that of a run.
pub(crate) fn fault_of(channel: u32, bad: ProxyBad) -> MeshBad
    ensures { result ≡ fault_of channel bad }
{
    match bad {
        ProxyBad::Lost => MeshBad::Lost { channel },
        ProxyBad::Frame(bad) => peer_of(channel, bad),
        ProxyBad::NoMemory => MeshBad::NoMemory,
    }
}

// The first fault of the bytes that came on this channel.
fn peer_of(channel: u32, bad: FrameBad) -> MeshBad
    ensures { result ≡ fault_of channel (ProxyBad.Frame bad) }
{
    match bad {
        FrameBad::Length { offset } => MeshBad::Peer {
            channel,
            offset,
            reason: PeerReason::Length,
        },
        FrameBad::Message { offset, .. } => MeshBad::Peer {
            channel,
            offset,
            reason: PeerReason::Message,
        },
        FrameBad::Falls { offset } => MeshBad::Peer {
            channel,
            offset,
            reason: PeerReason::Falls,
        },
        FrameBad::Order { offset } => MeshBad::Peer {
            channel,
            offset,
            reason: PeerReason::Order,
        },
        FrameBad::NoMemory => MeshBad::NoMemory,
    }
}
