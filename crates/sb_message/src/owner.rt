ghost use Rattle.std.specs.Prelude.{◌≡◌, ◌<◌};
ghost use Rattle.sb_message.specs.Spelling.{word_of};

/// The owner's bit of byte 63: set where the consumer owns the message.
pub const OWNER_BIT: u8 = 0x80;

/// The word of 64 bits that says who owns a slot and which type of message is in it, as byte 63 does at its top.
pub fn word_of(ty: u8, consumer: bool) -> u64
    requires { ty < 128 }
    ensures { result ≡ word_of ty consumer }
{
    let owner = if consumer { OWNER_BIT } else { 0 };
    u64::from(ty + owner) << 56
}
