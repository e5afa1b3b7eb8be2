use crate::items::Octets;

/// What is left of a proxied channel after a run.
#[derive(Debug, Drop)]
pub struct WireEnd<O, I> {
    /// The channel's number: twice that of its link, and one more on the way back.
    pub channel: u32,
    /// The wire's end at the channel's sender.
    pub out: O,
    /// The wire's end at the channel's receiver.
    pub wire: I,
    /// The bytes that the sender's end kept: what was to go.
    pub sent: Octets,
    /// The bytes that the receiver's end kept: what came.
    pub got: Octets,
}
