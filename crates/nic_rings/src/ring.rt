ghost use Rattle.std.specs.Prelude.{◌≡◌, ◌<◌};

/// A ring of descriptors in the memory of the host: the descriptors from the head to before the tail are the
/// adapter's.
#[derive(Clone, Copy, Debug, PartialEq, Eq)]
pub struct Ring {
    /// The address of the first descriptor.
    pub base: u64,
    /// The length in bytes.
    pub len: u32,
    /// The number of the first descriptor that is the adapter's.
    pub head: u32,
    /// The number of the first descriptor after those that are the adapter's.
    pub tail: u32,
}

impl Ring {
    ghost use Rattle.nic_rings.specs.Rings.{count_of, free_in, head_address, next_head};

    /// How many descriptors the ring has.
    pub fn count(&self) -> u32
        ensures count { result ≡ count_of self.now }
    {
        self.len / 16
    }

    /// How many descriptors are the adapter's. A ring whose head or tail isn't below its count owns none.
    pub fn free(&self) -> u32
        ensures free { result ≡ free_in self.now }
    {
        let count = self.count();
        if self.head < count && self.tail < count {
            (self.tail + count - self.head) % count
        } else {
            0
        }
    }

    /// The address of the descriptor at the head, modulo 2^64.
    pub fn address(&self) -> u64
        ensures address { result ≡ head_address self.now }
    {
        self.base.wrapping_add(16 * u64::from(self.head))
    }

    /// The head after the descriptor at the head.
    pub fn advance(&self) -> u32
        requires { self.now.head < count_of self.now }
        ensures next { result ≡ next_head self.now }
    {
        (self.head + 1) % self.count()
    }
}
