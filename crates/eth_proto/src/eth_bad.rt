ghost use Rattle.std.specs.Prelude.{◌≡◌};

use thiserror::Error;

/// Why bytes are no Ethernet frame: the first of these that holds.
#[derive(Clone, Copy, Debug, PartialEq, Eq, Error)]
pub enum EthBad {
    /// The type is not 0x70.
    #[error("unknown type")]
    UnknownType,
    /// The payload has fewer than 14 bytes.
    #[error("too short")]
    TooShort,
    /// The payload has more than 1,514 bytes.
    #[error("too long")]
    TooLong,
    /// The length in bytes 0 and 1 is not the payload's.
    #[error("length differs")]
    LengthDiffers,
    /// A byte that belongs to no field is not zero.
    #[error("field not zero")]
    FieldNotZero,
    /// Memory is wanting. This is tried last, and so comes only where nothing is wrong with the bytes.
    #[error("no memory")]
    NoMemory,
}

impl From<cs_base::no_memory::NoMemory> for EthBad {
    ghost use Rattle.eth_proto.specs.declared.eth_bad.EthBad.TheVariants.{NoMemory};

    ghost from_gives = { λ _ bad. bad ≡ NoMemory };

    fn from(_error: cs_base::no_memory::NoMemory) -> EthBad {
        EthBad::NoMemory
    }
}
