/// What a step has done, or asks for.
#[derive(Clone, Copy, Debug, PartialEq, Eq)]
pub enum Act {
    /// The instruction has run.
    Done,
    /// The instruction waits for the `size` bytes at `addr`, which [`Core::finish_load`](crate::Core::finish_load) gives.
    Load { addr: u32, size: u32 },
    /// The instruction waits until the low `size` bytes of `value` are stored at `addr`, which
    /// [`Core::finish_store`](crate::Core::finish_store) says. The value has no other bytes.
    Store { addr: u32, size: u32, value: u32 },
    /// WFI has run, and no interrupt that is enabled is pending.
    Wait,
    /// A trap was taken, with this cause.
    Trapped(u32),
}
