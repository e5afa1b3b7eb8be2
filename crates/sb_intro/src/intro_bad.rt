use thiserror::Error;

/// Why bytes are no introduction: the first of these that holds.
#[derive(Clone, Copy, Debug, PartialEq, Eq, Error)]
pub enum IntroBad {
    /// The type is not 0x01.
    #[error("unknown type")]
    UnknownType,
    /// The version, bytes 0 to 3, is not 1.
    #[error("unknown version")]
    Version,
    /// The kind, byte 4, is none.
    #[error("unknown kind")]
    Kind,
    /// There is a payload.
    #[error("length differs")]
    LengthDiffers,
    /// A byte that belongs to no field is not zero.
    #[error("field not zero")]
    FieldNotZero,
}
