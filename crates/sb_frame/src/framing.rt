ghost use Rattle.std.specs.Prelude.{◌≡◌, ◌≤◌, ◌+◌, ◌++◌, length, vec_len, vec_capacity, OnOk, OnErr};
ghost use Rattle.sb_frame.specs.Framing.{AppendsFrame};

use crate::parts::parts_of;
use cs_base::items::Octets;
use cs_base::no_memory::NoMemory;
use sb_message::Msg;

/// The bytes of the longest frame: the length, and the longest message.
pub const LONGEST_FRAME: usize = 2116;

/// The owner's bit in byte 63 of a message: its slot is the consumer's.
const OWNER_BIT: u8 = 0x80;

/// Appends the message as a frame: its length in four bytes, the lowest first, which is 64 to 2,112, and its bytes.
/// Where memory is wanting, `out` stays as it was.
pub fn frame(m: &Msg, out: &mut Octets) -> Result<(), NoMemory>
    ensures ok { OnOk result (AppendsFrame m.now out.old out.new) }
    ensures err { OnErr result (out.new ≡ out.old) }
{
    let mut bytes = std::mem::replace(out, Octets::new(out.alloc())).into_vec();
    if bytes.reserve(LONGEST_FRAME).is_err() {
        *out = Octets::from_vec(bytes);
        return Err(NoMemory);
    }
    frame_reserved(m, &mut bytes);
    *out = Octets::from_vec(bytes);
    Ok(())
}

/// Appends the message as a frame where there is room for the longest one, so it takes no memory: what has been taken
/// out of a queue is never lost on its way.
pub fn frame_reserved(m: &Msg, out: &mut Vec<u8>)
    requires room { vec_len out.old + 2116 ≤ vec_capacity out.old }
    ensures { AppendsFrame m.now out.old.items out.new.items }
{
    let parts = parts_of(&m.body);
    let size = 64 + parts.payload.len();
    put(out, &(size as u32).to_le_bytes());
    put(out, &parts.fields);
    put(out, &m.at.picoseconds().to_le_bytes());
    put(out, &[0, 0, 0, 0, 0, 0, 0, OWNER_BIT + parts.ty]);
    put(out, parts.payload);
}

// Appends bytes for which there is room.
fn put(out: &mut Vec<u8>, bytes: &[u8])
    requires { vec_len out.old + length bytes.now ≤ vec_capacity out.old }
    ensures items { out.new.items ≡ out.old.items ++ bytes.now }
    ensures len { vec_len out.new ≡ vec_len out.old + length bytes.now }
    ensures capacity { vec_capacity out.old ≤ vec_capacity out.new }
{
    if out.extend_from_slice(bytes).is_err() {
        unreachable!()
    }
}
