/// The first place at which what came is not what was sent.
#[derive(Clone, Copy, Debug, PartialEq, Eq)]
pub struct Differ {
    /// The place, in bytes from the start.
    pub offset: u64,
    /// What was sent there; None where less was sent.
    pub sent: Option<u8>,
    /// What came there.
    pub got: u8,
}
