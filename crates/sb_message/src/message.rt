ghost use Rattle.std.specs.Prelude.{◌≡◌, IfOk};

use cs_base::no_memory::NoMemory;
use cs_base::time::Time;
use eth_proto::EthMsg;
use mem_proto::MemMsg;
use pcie_proto::{DevMsg, HostMsg};
use sb_intro::Intro;

/// What a message carries.
#[derive(Debug, Drop)]
pub enum Body {
    /// Nothing: a null message, which only moves its receiver's bound on.
    Sync,
    /// The sender's introduction, the first message of each channel.
    Intro(Intro),
    /// From a PCIe device to its host.
    Dev(DevMsg),
    /// From a host to a PCIe device.
    Host(HostMsg),
    /// Between a host and a memory device.
    Mem(MemMsg),
    /// An Ethernet frame.
    Eth(EthMsg),
}

/// A message of a channel.
#[derive(Debug, Drop)]
pub struct Msg {
    /// When its receiver processes it.
    pub at: Time,
    pub body: Body,
}

impl Body {
    ghost use Rattle.std.specs.Prelude.{◌<◌};
    ghost use Rattle.sb_message.specs.Types.{body_type};

    /// The type of a message with this body, which stands in the low seven bits of byte 63.
    pub fn ty(&self) -> u8
        ensures ty { result ≡ body_type self.now }
        ensures small { result < 128 }
    {
        match self {
            Body::Sync => 0x00,
            Body::Intro(intro) => intro.ty(),
            Body::Dev(message) => message.ty(),
            Body::Host(message) => message.ty(),
            Body::Mem(message) => message.ty(),
            Body::Eth(message) => message.ty(),
        }
    }

    /// The same body once more.
    pub fn copy(&self) -> Result<Body, NoMemory>
        ensures { IfOk result (λ copied. copied ≡ self.now) }
    {
        Ok(match self {
            Body::Sync => Body::Sync,
            Body::Intro(intro) => Body::Intro(*intro),
            Body::Dev(message) => Body::Dev(message.copy()?),
            Body::Host(message) => Body::Host(message.copy()?),
            Body::Mem(message) => Body::Mem(message.copy()?),
            Body::Eth(message) => Body::Eth(message.copy()?),
        })
    }
}
