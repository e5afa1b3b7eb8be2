use crate::data::Data;
use crate::length::Length;

/// What a message asks for, or is the answer to.
#[derive(Clone, Copy, Debug, PartialEq, Eq)]
pub enum Operation {
    /// Asks for bytes.
    Read,
    /// Asks to store bytes.
    Write,
    /// The bytes that a read asked for.
    ReadDone,
    /// A write's bytes are stored.
    WriteDone,
}

/// A read, a write, or the completion of one. A completion has the number of its request.
#[derive(Debug, Drop)]
pub enum Access {
    Read { id: u64, addr: u64, len: Length },
    Write { id: u64, addr: u64, bytes: Data },
    ReadDone { id: u64, bytes: Data },
    WriteDone { id: u64 },
}
