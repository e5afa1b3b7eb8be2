ghost use Rattle.std.specs.Prelude.{◌≡◌};

use access_proto::AccessBad;
use thiserror::Error;

/// Why bytes are no message of a PCIe link: the first of these that holds.
#[derive(Clone, Copy, Debug, PartialEq, Eq, Error)]
pub enum PcieBad {
    /// The type is none that this end of the link sends: 0x40 to 0x44 the device, 0x60 to 0x63 the host.
    #[error("unknown type")]
    UnknownType,
    /// The number of the region in byte 18 of a host's request is not 0.
    #[error("bad bar")]
    BadBar,
    /// The length in bytes 16 and 17 is 0 or above 2,048.
    #[error("length out of range")]
    LengthRange,
    /// The payload's length is not the one in bytes 16 and 17, or there is a payload where there is to be none.
    #[error("length differs")]
    LengthDiffers,
    /// A byte that belongs to no field is not zero, or a level is above 1.
    #[error("field not zero")]
    FieldNotZero,
    /// Memory is wanting. This is tried last, and so comes only where nothing is wrong with the bytes.
    #[error("no memory")]
    NoMemory,
}

impl From<AccessBad> for PcieBad {
    ghost use Rattle.pcie_proto.specs.Refusals.{refused_as};

    ghost from_gives = { λ access_bad bad. bad ≡ refused_as access_bad };

    fn from(bad: AccessBad) -> PcieBad {
        match bad {
            AccessBad::LengthRange => PcieBad::LengthRange,
            AccessBad::LengthDiffers => PcieBad::LengthDiffers,
            AccessBad::FieldNotZero => PcieBad::FieldNotZero,
            AccessBad::NoMemory => PcieBad::NoMemory,
        }
    }
}
