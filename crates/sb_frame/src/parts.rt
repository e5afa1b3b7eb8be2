ghost use Rattle.std.specs.Prelude.{◌≡◌, ◌<◌, length};
ghost use Rattle.sb_message.specs.Spelling.{SpellsBody};

use sb_message::Body;

/// What a message's bytes are made of besides its timestamp.
#[derive(Drop)]
pub(crate) struct Parts<'a> {
    pub(crate) ty: u8,
    pub(crate) fields: [u8; 48],
    pub(crate) payload: &'a [u8],
}

/// The parts of a message with this body.
pub(crate) fn parts_of(body: &Body) -> Parts<'_>
    ensures row { SpellsBody body.now result.ty result.fields result.payload.now }
    ensures small { result.ty < 128 }
    ensures wide { length result.fields ≡ 48 }
{
    match body {
        Body::Sync => Parts {
            ty: 0x00,
            fields: [0; 48],
            payload: &[],
        },
        Body::Intro(intro) => Parts {
            ty: intro.ty(),
            fields: intro.fields(),
            payload: intro.payload(),
        },
        Body::Dev(message) => Parts {
            ty: message.ty(),
            fields: message.fields(),
            payload: message.payload(),
        },
        Body::Host(message) => Parts {
            ty: message.ty(),
            fields: message.fields(),
            payload: message.payload(),
        },
        Body::Mem(message) => Parts {
            ty: message.ty(),
            fields: message.fields(),
            payload: message.payload(),
        },
        Body::Eth(message) => Parts {
            ty: message.ty(),
            fields: message.fields(),
            payload: message.payload(),
        },
    }
}
