use asm_syntax::{LineBad, Statement};

/// A line of a source, without its label, and where it stands.
#[derive(Debug, Drop)]
pub(crate) struct Placed {
    /// Its statement, if it has one, or what is wrong with it.
    pub(crate) content: Result<Option<Statement>, LineBad>,
    /// The address of its first byte. The lines of a source that is too long may stand past the addresses of 32 bits, and
    /// no source is so long that 128 bits don't suffice.
    pub(crate) address: u128,
    /// An earlier line has its label.
    pub(crate) twice: bool,
}
