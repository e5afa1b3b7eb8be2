ghost use Rattle.std.specs.Prelude.{◌≡◌};

use field_layout::{u8_at, u16_at, u64_at};

/// A legacy receive descriptor. Its bytes are little-endian, each field at its place: address 0, length 8, packet
/// checksum 10, status 12, errors 13, special 14.
#[derive(Clone, Copy, Debug, PartialEq, Eq)]
pub struct RxDesc {
    /// The address of the buffer.
    pub addr: u64,
    /// The bytes that were written to the buffer.
    pub length: u16,
    /// The packet checksum.
    pub checksum: u16,
    /// The status: DD in bit 0, EOP in bit 1.
    pub status: u8,
    /// The errors.
    pub errors: u8,
    /// The special field, of VLAN tags.
    pub special: u16,
}

impl RxDesc {
    ghost use Rattle.nic_rings.specs.Descriptors.{RxFits, rx_bytes, rx_desc_of};

    /// The descriptor of these bytes.
    pub fn from_bytes(b: &[u8; 16]) -> Self
        ensures read { result ≡ rx_desc_of b.now }
        ensures back { rx_bytes result ≡ b.now }
    {
        RxDesc {
            addr: u64_at(b, 0),
            length: u16_at(b, 8),
            checksum: u16_at(b, 10),
            status: u8_at(b, 12),
            errors: u8_at(b, 13),
            special: u16_at(b, 14),
        }
    }

    /// The bytes of the descriptor.
    pub fn to_bytes(&self) -> [u8; 16]
        ensures written { result ≡ rx_bytes self.now }
        ensures back { rx_desc_of result ≡ self.now }
    {
        self.joined()
    }

    fn joined(&self) -> [u8; 16]
        ensures written { result ≡ rx_bytes self.now }
        ensures fits { RxFits self.now }
    {
        let (addr, length, checksum) = (self.addr, self.length, self.checksum);
        let (status, errors, special) = (self.status, self.errors, self.special);
        let [a0, a1, a2, a3, a4, a5, a6, a7] = addr.to_le_bytes();
        let [l0, l1] = length.to_le_bytes();
        let [c0, c1] = checksum.to_le_bytes();
        let [s0, s1] = special.to_le_bytes();
        [
            a0, a1, a2, a3, a4, a5, a6, a7, l0, l1, c0, c1, status, errors, s0, s1,
        ]
    }
}
