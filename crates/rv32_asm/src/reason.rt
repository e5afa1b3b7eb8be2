use thiserror::Error;

/// What is wrong with a line of a source. Of several faults of a line the one of the least number is answered.
#[derive(Clone, Copy, Debug, PartialEq, Eq, Error)]
pub enum AsmReason {
    /// The line is outside the language.
    #[error("bad line")]
    BadLine = 1,
    /// A statement's or a CSR's place has a word that names none.
    #[error("unknown word")]
    UnknownWord = 2,
    /// A register's place has a word that is no register.
    #[error("bad register")]
    BadRegister = 3,
    /// A number is out of its range, a label is out of a branch's or jump's reach or at an odd distance, or an
    /// instruction or `.word` is at an address that is no multiple of 4.
    #[error("range")]
    Range = 4,
    /// An earlier line has the line's label.
    #[error("label twice")]
    LabelTwice = 5,
    /// No line has the label that the statement uses.
    #[error("label missing")]
    LabelMissing = 6,
    /// With this line the source has more than 16,777,216 bytes.
    #[error("too long")]
    TooLong = 7,
}

/// Why a source can't be assembled.
#[derive(Clone, Copy, Debug, PartialEq, Eq, Error)]
pub enum AsmBad {
    /// The first line at fault, counted from 1, and what is wrong with it.
    #[error("line {line}: {reason}")]
    At { line: u64, reason: AsmReason },
    /// Memory is wanting.
    #[error("no memory")]
    NoMemory,
}
