ghost use Rattle.std.specs.Prelude.{◌≡◌, ◌≤◌, length};
ghost use Rattle.nic_8254x.specs.Checksum.{checksummed, packet_checksum};

use lane_kernels::ones_sum;
use nic_rings::TxDesc;

/// CMD.IC, insert checksum.
const IC: u8 = 1 << 2;

/// The sum of a received frame from a place on, 0 where that is past its end.
pub(crate) fn packet_checksum(start: u32, frame: &[u8]) -> u16
    ensures { result ≡ packet_checksum start frame.now }
{
    let start = start as usize;
    if start < frame.len() {
        ones_sum(&frame[start..])
    } else {
        0
    }
}

/// Inserts the checksum of a frame from CSS on at CSO, the high byte first, where the descriptor asks for it.
pub(crate) fn insert_checksum(descriptor: &TxDesc, frame: &mut [u8])
    ensures { frame.new ≡ checksummed descriptor.now frame.old }
{
    let (offset, start) = (usize::from(descriptor.cso), usize::from(descriptor.css));
    if descriptor.cmd & IC != 0 && offset + 2 <= frame.len() && start < frame.len() {
        let sum = 65535 - ones_sum(&frame[start..]);
        frame[offset..offset + 2].copy_from_slice(&[(sum / 256) as u8, (sum % 256) as u8]);
    }
}
