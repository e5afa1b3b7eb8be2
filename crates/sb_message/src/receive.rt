ghost use Rattle.std.specs.Prelude.{◌≡◌};
ghost use Rattle.sb_message.specs.Receivable.{receivable, is_event};

use crate::message::Body;
use cs_base::port_kind::PortKind;
use mem_proto::MemMsg;

/// Whether a port of this kind may receive the body. What a kind may send is what its partner may receive.
pub fn receivable(kind: PortKind, body: &Body) -> bool
    ensures { result ≡ receivable kind body.now }
{
    match body {
        Body::Sync | Body::Intro(_) => true,
        Body::Dev(_) => matches!(kind, PortKind::PcieHost),
        Body::Host(_) => matches!(kind, PortKind::PcieDev),
        Body::Mem(message) => match message {
            MemMsg::Read { .. } | MemMsg::Write { .. } => matches!(kind, PortKind::MemDev),
            MemMsg::ReadDone { .. } | MemMsg::WriteDone { .. } => matches!(kind, PortKind::MemHost),
        },
        Body::Eth(_) => matches!(kind, PortKind::Eth),
    }
}

/// Whether the body is an event for a device: neither a null message nor an introduction.
pub fn is_event(body: &Body) -> bool
    ensures { result ≡ is_event body.now }
{
    match body {
        Body::Sync | Body::Intro(_) => false,
        Body::Dev(_) | Body::Host(_) | Body::Mem(_) | Body::Eth(_) => true,
    }
}
