ghost use Rattle.std.specs.Prelude.{◌≡◌};

use field_layout::{u8_at, u16_at, u64_at};

/// A legacy transmit descriptor. Its bytes are little-endian, each field at its place: address 0, length 8, CSO 10,
/// CMD 11, status 12, CSS 13, special 14.
#[derive(Clone, Copy, Debug, PartialEq, Eq)]
pub struct TxDesc {
    /// The address of the data.
    pub addr: u64,
    /// The bytes of data.
    pub length: u16,
    /// The checksum offset: the place in the frame at which the checksum is inserted.
    pub cso: u8,
    /// The command: EOP 0, IFCS 1, IC 2, RS 3, DEXT 5, VLE 6, IDE 7.
    pub cmd: u8,
    /// The status, DD in bit 0, and the reserved bits above.
    pub status: u8,
    /// The checksum start: the place in the frame from which on it is summed.
    pub css: u8,
    /// The special field, of VLAN tags.
    pub special: u16,
}

impl TxDesc {
    ghost use Rattle.nic_rings.specs.Descriptors.{TxFits, tx_bytes, tx_desc_of};

    /// The descriptor of these bytes.
    pub fn from_bytes(b: &[u8; 16]) -> Self
        ensures read { result ≡ tx_desc_of b.now }
        ensures back { tx_bytes result ≡ b.now }
    {
        TxDesc {
            addr: u64_at(b, 0),
            length: u16_at(b, 8),
            cso: u8_at(b, 10),
            cmd: u8_at(b, 11),
            status: u8_at(b, 12),
            css: u8_at(b, 13),
            special: u16_at(b, 14),
        }
    }

    /// The bytes of the descriptor.
    pub fn to_bytes(&self) -> [u8; 16]
        ensures written { result ≡ tx_bytes self.now }
        ensures back { tx_desc_of result ≡ self.now }
    {
        self.joined()
    }

    fn joined(&self) -> [u8; 16]
        ensures written { result ≡ tx_bytes self.now }
        ensures fits { TxFits self.now }
    {
        let (addr, length, special) = (self.addr, self.length, self.special);
        let (cso, cmd, status, css) = (self.cso, self.cmd, self.status, self.css);
        let [a0, a1, a2, a3, a4, a5, a6, a7] = addr.to_le_bytes();
        let [l0, l1] = length.to_le_bytes();
        let [s0, s1] = special.to_le_bytes();
        [
            a0, a1, a2, a3, a4, a5, a6, a7, l0, l1, cso, cmd, status, css, s0, s1,
        ]
    }
}
