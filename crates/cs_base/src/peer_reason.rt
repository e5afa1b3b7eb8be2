ghost use Rattle.std.specs.Prelude.{◌≡◌};
ghost use Rattle.cs_base.specs.PeerReasons.{peer_reason_text};

/// What is wrong with the messages that came from the peer of a channel.
#[derive(Clone, Copy, Debug, PartialEq, Eq, Hash)]
pub enum PeerReason {
    /// The length of a frame is below 64 or above 2,112.
    Length,
    /// The bytes of a frame spell no message that its receiver may receive.
    Message,
    /// A timestamp is less than the one before.
    Falls,
    /// The first frame is no introduction, or a later one is.
    Order,
    /// The introduction isn't that of the link.
    Intro,
}

impl PeerReason {
    /// Its name in lower case.
    pub fn text(self) -> &'static [u8]
        ensures { result.now ≡ peer_reason_text self }
    {
        match self {
            PeerReason::Length => b"length",
            PeerReason::Message => b"message",
            PeerReason::Falls => b"falls",
            PeerReason::Order => b"order",
            PeerReason::Intro => b"intro",
        }
    }
}
