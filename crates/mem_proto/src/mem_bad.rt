ghost use Rattle.std.specs.Prelude.{◌≡◌};

use access_proto::AccessBad;
use thiserror::Error;

/// Why bytes are no message of a memory link: the first of these that holds.
#[derive(Clone, Copy, Debug, PartialEq, Eq, Error)]
pub enum MemBad {
    /// The type is none of 0x50 to 0x53.
    #[error("unknown type")]
    UnknownType,
    /// The length in bytes 16 and 17 is 0 or above 2,048.
    #[error("length out of range")]
    LengthRange,
    /// The payload's length is not the one in bytes 16 and 17, or there is a payload where there is to be none.
    #[error("length differs")]
    LengthDiffers,
    /// A byte that belongs to no field is not zero.
    #[error("field not zero")]
    FieldNotZero,
    /// Memory is wanting. This is tried last, and so comes only where nothing is wrong with the bytes.
    #[error("no memory")]
    NoMemory,
}

impl From<AccessBad> for MemBad {
    ghost use Rattle.mem_proto.specs.Refusals.{refused_as};

    ghost from_gives = { λ access_bad bad. bad ≡ refused_as access_bad };

    fn from(bad: AccessBad) -> MemBad {
        match bad {
            AccessBad::LengthRange => MemBad::LengthRange,
            AccessBad::LengthDiffers => MemBad::LengthDiffers,
            AccessBad::FieldNotZero => MemBad::FieldNotZero,
            AccessBad::NoMemory => MemBad::NoMemory,
        }
    }
}
