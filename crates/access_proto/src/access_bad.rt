use thiserror::Error;

/// Why a message of an operation is no access: the first of these that holds.
#[derive(Clone, Copy, Debug, PartialEq, Eq, Error)]
pub enum AccessBad {
    /// The length in bytes 16 and 17 is 0 or above 2,048.
    #[error("length out of range")]
    LengthRange,
    /// The payload's length is not the one in bytes 16 and 17, or there is a payload where there is to be none.
    #[error("length differs")]
    LengthDiffers,
    /// A byte that belongs to no field is not zero.
    #[error("field not zero")]
    FieldNotZero,
    /// Memory is wanting. This is tried last, and so comes only where nothing is wrong with the bytes.
    #[error("no memory")]
    NoMemory,
}

impl From<cs_base::no_memory::NoMemory> for AccessBad {
    ghost use Rattle.std.specs.Prelude.{◌≡◌};
    ghost use Rattle.access_proto.specs.declared.access_bad.AccessBad.TheVariants.{NoMemory};

    ghost from_gives = { λ _ bad. bad ≡ NoMemory };

    fn from(_error: cs_base::no_memory::NoMemory) -> AccessBad {
        AccessBad::NoMemory
    }
}
