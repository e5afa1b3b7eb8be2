ghost use Rattle.field_layout.specs.Layout.{IsLaidOut};
ghost use Rattle.access_proto.specs.Spelling.{request_table, bytes_table, id_table};

use crate::length::Length;
use field_layout::{put_u16, put_u64};

const ADDR: usize = 8;

const LENGTH: usize = 16;

/// The fields of a read or a write, little-endian: the number of the request in bytes 0 to 7, the address in bytes 8
/// to 15, the length in bytes 16 and 17.
pub fn request_fields(id: u64, addr: u64, len: Length) -> [u8; 48]
    ensures { IsLaidOut 48 (request_table id addr len) result }
{
    let mut fields = [0; 48];
    put_u64(&mut fields, 0, id);
    put_u64(&mut fields, ADDR, addr);
    put_u16(&mut fields, LENGTH, len.bytes() as u16);
    fields
}

/// The fields of a completion with bytes: the number of the request in bytes 0 to 7, the length in bytes 16 and 17.
pub fn bytes_fields(id: u64, len: Length) -> [u8; 48]
    ensures { IsLaidOut 48 (bytes_table id len) result }
{
    let mut fields = [0; 48];
    put_u64(&mut fields, 0, id);
    put_u16(&mut fields, LENGTH, len.bytes() as u16);
    fields
}

/// The fields of a completion without bytes: the number of the request in bytes 0 to 7.
pub fn id_fields(id: u64) -> [u8; 48]
    ensures { IsLaidOut 48 (id_table id) result }
{
    let mut fields = [0; 48];
    put_u64(&mut fields, 0, id);
    fields
}
