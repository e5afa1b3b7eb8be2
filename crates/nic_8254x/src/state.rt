/// Where the receive engine is.
#[derive(Clone, Copy, Debug, PartialEq, Eq)]
pub enum RxStep {
    /// It rests.
    Idle,
    /// It reads a descriptor at an address.
    Read {
        id: u64,
        place: u64,
    },
    /// It writes a part of the first frame to the descriptor's buffer; so many bytes of it were acknowledged.
    Data {
        id: u64,
        place: u64,
        addr: u64,
        part: u32,
        done: u32,
    },
    /// It writes the descriptor back that holds a part.
    Back {
        id: u64,
        part: u32,
    },
}

/// Where the transmit engine is.
#[derive(Clone, Copy, Debug, PartialEq, Eq)]
pub enum TxStep {
    /// It rests.
    Idle,
    /// It reads a descriptor at an address.
    Read {
        id: u64,
        place: u64,
    },
    /// It reads the bytes of the descriptor's buffer; so many of them came.
    Data {
        id: u64,
        place: u64,
        descriptor: [u8; 16],
        done: u32,
    },
    /// It writes the descriptor back.
    Back {
        id: u64,
    },
}
