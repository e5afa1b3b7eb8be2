/// One step of a mesh: what one component or one channel does next.
#[derive(Clone, Copy, Debug, PartialEq, Eq)]
pub enum Step {
    /// The component of this number processes its next event.
    Event(u32),
    /// The first message that waits on this channel goes into its queue.
    Send(u32),
    /// The first message of this channel's queue reaches the port at its end.
    Poll(u32),
    /// The first message of a proxied channel's near queue goes into its pipe.
    Take(u32),
    /// So many bytes of a proxied channel's pipe move on.
    Move(u32, u64),
    /// The first message that moved whole on a proxied channel goes into its far queue.
    Put(u32),
}
