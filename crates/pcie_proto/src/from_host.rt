ghost use Rattle.std.specs.Prelude.{◌≡◌, IfOk};

use crate::bar::Bar;
use access_proto::{Access, Data, Length};
use cs_base::no_memory::NoMemory;

/// A message from a host to a PCIe device. An answer has the number of its request.
#[derive(Debug, Drop)]
pub enum HostMsg {
    /// Asks for the bytes of a region of registers from an offset on.
    Read {
        id: u64,
        bar: Bar,
        offset: u64,
        len: Length,
    },
    /// Asks to store bytes into a region of registers from an offset on.
    Write {
        id: u64,
        bar: Bar,
        offset: u64,
        bytes: Data,
    },
    /// The bytes that the device's read asked for.
    ReadDone {
        id: u64,
        bytes: Data,
    },
    /// The device's write was answered.
    WriteDone {
        id: u64,
    },
}

impl HostMsg {
    ghost use Rattle.field_layout.specs.Layout.{IsLaidOut};
    ghost use Rattle.pcie_proto.specs.FromHost.{type_of, table_of, payload_of, message_of, HasLength, HasBar};

    /// The type of the message, 0x60 to 0x63.
    pub fn ty(&self) -> u8
        ensures { result ≡ type_of self.now }
    {
        match self {
            HostMsg::Read { .. } => 0x60,
            HostMsg::Write { .. } => 0x61,
            HostMsg::ReadDone { .. } => 0x62,
            HostMsg::WriteDone { .. } => 0x63,
        }
    }

    /// The fields of the message, as those of an access at the offset; the number of the region, 0, stands in byte 18.
    pub fn fields(&self) -> [u8; 48]
        ensures { IsLaidOut 48 (table_of self.now) result }
    {
        match self {
            HostMsg::Read {
                id,
                offset,
                len,
                ..
            } => access_proto::request_fields(*id, *offset, *len),
            HostMsg::Write {
                id,
                offset,
                bytes,
                ..
            } => access_proto::request_fields(*id, *offset, bytes.len()),
            HostMsg::ReadDone { id, bytes } => access_proto::bytes_fields(*id, bytes.len()),
            HostMsg::WriteDone { id } => access_proto::id_fields(*id),
        }
    }

    /// The payload: the bytes that a write or the completion of a read carries.
    pub fn payload(&self) -> &[u8]
        ensures bytes { result.now ≡ payload_of self.now }
        ensures is_bar { HasBar self.now }
        ensures in_range { HasLength self.now }
    {
        match self {
            HostMsg::Read { bar, len, .. } => {
                let _bar = bar.number();
                let _len = len.bytes();
                &[]
            }
            HostMsg::Write { bar, bytes, .. } => {
                let _bar = bar.number();
                bytes.as_slice()
            }
            HostMsg::ReadDone { bytes, .. } => bytes.as_slice(),
            HostMsg::WriteDone { .. } => &[],
        }
    }

    /// The message that an access is, a request at region 0.
    pub(crate) fn of(access: Access) -> HostMsg
        ensures { result ≡ message_of access }
    {
        let bar = Bar::first();
        match access {
            Access::Read { id, addr, len } => HostMsg::Read {
                id,
                bar,
                offset: addr,
                len,
            },
            Access::Write { id, addr, bytes } => HostMsg::Write {
                id,
                bar,
                offset: addr,
                bytes,
            },
            Access::ReadDone { id, bytes } => HostMsg::ReadDone { id, bytes },
            Access::WriteDone { id } => HostMsg::WriteDone { id },
        }
    }

    /// The same message once more.
    pub fn copy(&self) -> Result<HostMsg, NoMemory>
        ensures { IfOk result (λ copied. copied ≡ self.now) }
    {
        Ok(match self {
            HostMsg::Read {
                id,
                bar,
                offset,
                len,
            } => HostMsg::Read {
                id: *id,
                bar: *bar,
                offset: *offset,
                len: *len,
            },
            HostMsg::Write {
                id,
                bar,
                offset,
                bytes,
            } => HostMsg::Write {
                id: *id,
                bar: *bar,
                offset: *offset,
                bytes: bytes.copy()?,
            },
            HostMsg::ReadDone { id, bytes } => HostMsg::ReadDone {
                id: *id,
                bytes: bytes.copy()?,
            },
            HostMsg::WriteDone { id } => HostMsg::WriteDone { id: *id },
        })
    }
}
