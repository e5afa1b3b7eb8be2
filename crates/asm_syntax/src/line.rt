use crate::statement::Statement;
use cs_base::Octets;
use thiserror::Error;

/// What is wrong with a line by itself. Where several of these hold, the first in this order is told.
#[derive(Clone, Copy, Debug, PartialEq, Eq, Error)]
pub enum LineBad {
    /// It is outside the grammar.
    #[error("bad line")]
    BadLine,
    /// A statement's or a CSR's place has a word that names none.
    #[error("unknown word")]
    UnknownWord,
    /// A register's place has a word that is no register.
    #[error("bad register")]
    BadRegister,
    /// A number is outside its range; the statement takes that many bytes all the same.
    #[error("range")]
    OutOfRange { size: u32 },
}

/// A line of a source.
#[derive(Debug, Drop)]
pub struct Line {
    /// The label at its beginning, without the colon; a line at fault may have one too.
    pub label: Option<Octets>,
    /// Its statement, if it has one, or what is wrong with it.
    pub content: Result<Option<Statement>, LineBad>,
}
