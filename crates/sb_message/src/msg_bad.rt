ghost use Rattle.std.specs.Prelude.{◌≡◌};

use eth_proto::EthBad;
use mem_proto::MemBad;
use pcie_proto::PcieBad;
use sb_intro::IntroBad;
use thiserror::Error;

/// Why the body of a message is none.
#[derive(Clone, Copy, Debug, PartialEq, Eq, Error)]
pub enum UpperBad {
    /// A null message has a field that is not zero, or a payload.
    #[error("sync: not empty")]
    Sync,
    /// An introduction's fault.
    #[error("intro: {0}")]
    Intro(IntroBad),
    /// The fault of a message of a PCIe link.
    #[error("pcie: {0}")]
    Pcie(PcieBad),
    /// The fault of a message of a memory link.
    #[error("mem: {0}")]
    Mem(MemBad),
    /// An Ethernet frame's fault.
    #[error("eth: {0}")]
    Eth(EthBad),
}

/// Why bytes are no message: the first of these that holds.
#[derive(Clone, Copy, Debug, PartialEq, Eq, Error)]
pub enum MsgBad {
    /// There are fewer than 64 bytes.
    #[error("short")]
    Short,
    /// The owner's bit, the highest of byte 63, is clear.
    #[error("owner clear")]
    OwnerClear,
    /// The receiver may not receive messages of this type.
    #[error("type not of kind")]
    TypeNotOfKind,
    /// A byte of 56 to 62 is not zero.
    #[error("reserved not zero")]
    ReservedNotZero,
    /// The body's fault. It is never an unknown type, and never want of memory.
    #[error("{0}")]
    Upper(UpperBad),
    /// Memory is wanting. This is tried last, and so comes only where nothing is wrong with the bytes.
    #[error("no memory")]
    NoMemory,
}

impl From<IntroBad> for MsgBad {
    ghost use Rattle.sb_message.specs.declared.msg_bad.MsgBad.TheVariants.{Upper};
    ghost use Rattle.sb_message.specs.declared.msg_bad.UpperBad.TheVariants.{Intro};

    ghost from_gives = { λ intro_bad bad. bad ≡ Upper (Intro intro_bad) };

    fn from(bad: IntroBad) -> MsgBad {
        MsgBad::Upper(UpperBad::Intro(bad))
    }
}

impl From<EthBad> for MsgBad {
    ghost use Rattle.sb_message.specs.Refusals.{eth_refusal};

    ghost from_gives = { λ eth_bad bad. bad ≡ eth_refusal eth_bad };

    fn from(bad: EthBad) -> MsgBad {
        match bad {
            EthBad::NoMemory => MsgBad::NoMemory,
            bad => MsgBad::Upper(UpperBad::Eth(bad)),
        }
    }
}

impl From<MemBad> for MsgBad {
    ghost use Rattle.sb_message.specs.Refusals.{mem_refusal};

    ghost from_gives = { λ mem_bad bad. bad ≡ mem_refusal mem_bad };

    fn from(bad: MemBad) -> MsgBad {
        match bad {
            MemBad::NoMemory => MsgBad::NoMemory,
            bad => MsgBad::Upper(UpperBad::Mem(bad)),
        }
    }
}

impl From<PcieBad> for MsgBad {
    ghost use Rattle.sb_message.specs.Refusals.{pcie_refusal};

    ghost from_gives = { λ pcie_bad bad. bad ≡ pcie_refusal pcie_bad };

    fn from(bad: PcieBad) -> MsgBad {
        match bad {
            PcieBad::NoMemory => MsgBad::NoMemory,
            bad => MsgBad::Upper(UpperBad::Pcie(bad)),
        }
    }
}
