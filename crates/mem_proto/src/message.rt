ghost use Rattle.std.specs.Prelude.{◌≡◌, IfOk};

use access_proto::{Access, Data, Length};
use cs_base::no_memory::NoMemory;

/// A message of a memory link. A host asks, and a device answers with the number of the request.
#[derive(Debug, Drop)]
pub enum MemMsg {
    /// Asks for the bytes from an address on.
    Read { id: u64, addr: u64, len: Length },
    /// Asks to store bytes from an address on.
    Write { id: u64, addr: u64, bytes: Data },
    /// The bytes that a read asked for.
    ReadDone { id: u64, bytes: Data },
    /// A write was answered.
    WriteDone { id: u64 },
}

impl MemMsg {
    ghost use Rattle.field_layout.specs.Layout.{IsLaidOut};
    ghost use Rattle.access_proto.specs.Spelling.{table_of, payload_of, HasLength};
    ghost use Rattle.mem_proto.specs.Spelling.{type_of, access_of};

    /// The type of the message, 0x50 to 0x53.
    pub fn ty(&self) -> u8
        ensures { result ≡ type_of self.now }
    {
        match self {
            MemMsg::Read { .. } => 0x50,
            MemMsg::Write { .. } => 0x51,
            MemMsg::ReadDone { .. } => 0x52,
            MemMsg::WriteDone { .. } => 0x53,
        }
    }

    /// The fields of the message, as those of an access.
    pub fn fields(&self) -> [u8; 48]
        ensures { IsLaidOut 48 (table_of (access_of self.now)) result }
    {
        match self {
            MemMsg::Read { id, addr, len } => access_proto::request_fields(*id, *addr, *len),
            MemMsg::Write { id, addr, bytes } => {
                access_proto::request_fields(*id, *addr, bytes.len())
            }
            MemMsg::ReadDone { id, bytes } => access_proto::bytes_fields(*id, bytes.len()),
            MemMsg::WriteDone { id } => access_proto::id_fields(*id),
        }
    }

    /// The payload: the bytes that a write or the completion of a read carries.
    pub fn payload(&self) -> &[u8]
        ensures bytes { result.now ≡ payload_of (access_of self.now) }
        ensures in_range { HasLength (access_of self.now) }
    {
        match self {
            MemMsg::Read { len, .. } => {
                let _len = len.bytes();
                &[]
            }
            MemMsg::Write { bytes, .. } => bytes.as_slice(),
            MemMsg::ReadDone { bytes, .. } => bytes.as_slice(),
            MemMsg::WriteDone { .. } => &[],
        }
    }

    /// The message that an access is.
    pub(crate) fn of(access: Access) -> MemMsg
        ensures { access_of result ≡ access }
    {
        match access {
            Access::Read { id, addr, len } => MemMsg::Read { id, addr, len },
            Access::Write { id, addr, bytes } => MemMsg::Write { id, addr, bytes },
            Access::ReadDone { id, bytes } => MemMsg::ReadDone { id, bytes },
            Access::WriteDone { id } => MemMsg::WriteDone { id },
        }
    }

    /// The same message once more.
    pub fn copy(&self) -> Result<MemMsg, NoMemory>
        ensures { IfOk result (λ copied. copied ≡ self.now) }
    {
        Ok(match self {
            MemMsg::Read { id, addr, len } => MemMsg::Read {
                id: *id,
                addr: *addr,
                len: *len,
            },
            MemMsg::Write { id, addr, bytes } => MemMsg::Write {
                id: *id,
                addr: *addr,
                bytes: bytes.copy()?,
            },
            MemMsg::ReadDone { id, bytes } => MemMsg::ReadDone {
                id: *id,
                bytes: bytes.copy()?,
            },
            MemMsg::WriteDone { id } => MemMsg::WriteDone { id: *id },
        })
    }
}
