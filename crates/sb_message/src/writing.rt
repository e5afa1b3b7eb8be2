ghost use Rattle.std.specs.Prelude.{◌≡◌, ◌<◌, length, take, OnOk, OnErr};
ghost use Rattle.sb_message.specs.Spelling.{AppendsMessage, SpellsBody};

use crate::message::{Body, Msg};
use crate::owner::OWNER_BIT;
use cs_base::items::Octets;
use cs_base::no_memory::NoMemory;

#[derive(Drop)]
struct Parts<'a> {
    ty: u8,
    fields: [u8; 48],
    payload: &'a [u8],
}

fn parts_of(body: &Body) -> Parts<'_>
    ensures row { SpellsBody body.now result.ty result.fields result.payload.now }
    ensures small { result.ty < 128 }
{
    match body {
        Body::Sync => Parts {
            ty: 0x00,
            fields: [0; 48],
            payload: &[],
        },
        Body::Intro(intro) => Parts {
            ty: intro.ty(),
            fields: intro.fields(),
            payload: intro.payload(),
        },
        Body::Dev(message) => Parts {
            ty: message.ty(),
            fields: message.fields(),
            payload: message.payload(),
        },
        Body::Host(message) => Parts {
            ty: message.ty(),
            fields: message.fields(),
            payload: message.payload(),
        },
        Body::Mem(message) => Parts {
            ty: message.ty(),
            fields: message.fields(),
            payload: message.payload(),
        },
        Body::Eth(message) => Parts {
            ty: message.ty(),
            fields: message.fields(),
            payload: message.payload(),
        },
    }
}

/// Appends the message as bytes, its owner's bit set. Where memory is wanting, `out` stays as it was.
pub fn encode(m: &Msg, out: &mut Octets) -> Result<(), NoMemory>
    ensures ok { OnOk result (AppendsMessage m.now out.old out.new) }
    ensures err { OnErr result (out.new ≡ out.old) }
{
    let start = out.len();
    let appended = append(m, out);
    if appended.is_err() {
        out.truncate(start);
    }
    appended
}

fn append(m: &Msg, out: &mut Octets) -> Result<(), NoMemory>
    ensures ok { OnOk result (AppendsMessage m.now out.old out.new) }
    ensures err { OnErr result (take (length out.old) out.new ≡ out.old) }
{
    let parts = parts_of(&m.body);
    out.append(&parts.fields)?;
    out.append(&m.at.picoseconds().to_le_bytes())?;
    out.append(&[0, 0, 0, 0, 0, 0, 0, OWNER_BIT + parts.ty])?;
    out.append(parts.payload)
}
