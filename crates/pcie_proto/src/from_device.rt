ghost use Rattle.std.specs.Prelude.{◌≡◌, IfOk};
ghost use Rattle.field_layout.specs.Layout.{IsLaidOut};
ghost use Rattle.pcie_proto.specs.FromDevice.{level_table};

use access_proto::{Access, Data, Length};
use cs_base::no_memory::NoMemory;
use field_layout::put_u8;

/// A message from a PCIe device to its host. An answer has the number of its request.
#[derive(Debug, Drop)]
pub enum DevMsg {
    /// Asks for the bytes of the host's memory from an address on.
    Read { id: u64, addr: u64, len: Length },
    /// Asks to store bytes into the host's memory from an address on.
    Write { id: u64, addr: u64, bytes: Data },
    /// The level of the device's interrupt line.
    Level { high: bool },
    /// The bytes that the host's read asked for.
    ReadDone { id: u64, bytes: Data },
    /// The host's write was answered.
    WriteDone { id: u64 },
}

impl DevMsg {
    ghost use Rattle.field_layout.specs.Layout.{IsLaidOut};
    ghost use Rattle.pcie_proto.specs.FromDevice.{type_of, table_of, payload_of, message_of, HasLength};

    /// The type of the message, 0x40 to 0x44.
    pub fn ty(&self) -> u8
        ensures { result ≡ type_of self.now }
    {
        match self {
            DevMsg::Read { .. } => 0x40,
            DevMsg::Write { .. } => 0x41,
            DevMsg::Level { .. } => 0x42,
            DevMsg::ReadDone { .. } => 0x43,
            DevMsg::WriteDone { .. } => 0x44,
        }
    }

    /// The fields of the message, little-endian: as those of an access, and byte 0 of a level is 1 where the line is high.
    pub fn fields(&self) -> [u8; 48]
        ensures { IsLaidOut 48 (table_of self.now) result }
    {
        match self {
            DevMsg::Read { id, addr, len } => access_proto::request_fields(*id, *addr, *len),
            DevMsg::Write { id, addr, bytes } => {
                access_proto::request_fields(*id, *addr, bytes.len())
            }
            DevMsg::Level { high } => level_fields(u8::from(*high)),
            DevMsg::ReadDone { id, bytes } => access_proto::bytes_fields(*id, bytes.len()),
            DevMsg::WriteDone { id } => access_proto::id_fields(*id),
        }
    }

    /// The payload: the bytes that a write or the completion of a read carries.
    pub fn payload(&self) -> &[u8]
        ensures bytes { result.now ≡ payload_of self.now }
        ensures in_range { HasLength self.now }
    {
        match self {
            DevMsg::Read { len, .. } => {
                let _len = len.bytes();
                &[]
            }
            DevMsg::Level { .. } | DevMsg::WriteDone { .. } => &[],
            DevMsg::Write { bytes, .. } => bytes.as_slice(),
            DevMsg::ReadDone { bytes, .. } => bytes.as_slice(),
        }
    }

    /// The message that an access is.
    pub(crate) fn of(access: Access) -> DevMsg
        ensures { result ≡ message_of access }
    {
        match access {
            Access::Read { id, addr, len } => DevMsg::Read { id, addr, len },
            Access::Write { id, addr, bytes } => DevMsg::Write { id, addr, bytes },
            Access::ReadDone { id, bytes } => DevMsg::ReadDone { id, bytes },
            Access::WriteDone { id } => DevMsg::WriteDone { id },
        }
    }

    /// The same message once more.
    pub fn copy(&self) -> Result<DevMsg, NoMemory>
        ensures { IfOk result (λ copied. copied ≡ self.now) }
    {
        Ok(match self {
            DevMsg::Read { id, addr, len } => DevMsg::Read {
                id: *id,
                addr: *addr,
                len: *len,
            },
            DevMsg::Write { id, addr, bytes } => DevMsg::Write {
                id: *id,
                addr: *addr,
                bytes: bytes.copy()?,
            },
            DevMsg::Level { high } => DevMsg::Level { high: *high },
            DevMsg::ReadDone { id, bytes } => DevMsg::ReadDone {
                id: *id,
                bytes: bytes.copy()?,
            },
            DevMsg::WriteDone { id } => DevMsg::WriteDone { id: *id },
        })
    }
}

/// The fields of a level: its number in byte 0.
pub(crate) fn level_fields(number: u8) -> [u8; 48]
    ensures { IsLaidOut 48 (level_table number) result }
{
    let mut fields = [0; 48];
    put_u8(&mut fields, 0, number);
    fields
}
