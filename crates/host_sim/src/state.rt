use cs_base::time::Time;

/// What a host waits for.
#[derive(Clone, Copy, Debug, PartialEq, Eq)]
pub enum HostState {
    /// Its next tick, at a time.
    Due(Time),
    /// The completion with this id on a port: an instruction's access to a device is under way.
    Access { port: u32, id: u64 },
    /// An interrupt: WFI has run.
    Asleep,
    /// Nothing more: it has halted.
    Halted,
}

impl HostState {
    ghost use Rattle.std.specs.Prelude.{◌≡◌};
    ghost use Rattle.host_sim.specs.Machine.{due_of};
    ghost use Rattle.host_sim.specs.Arrivals.{is_awaited, is_asleep};

    #[inline(always)]
    pub(crate) fn due(&self) -> Option<Time>
        ensures { result ≡ due_of self.now }
    {
        match self {
            HostState::Due(t) => Some(*t),
            _ => None,
        }
    }

    pub(crate) fn awaits(&self, port: u32, id: u64) -> bool
        ensures { result ≡ is_awaited self.now port id }
    {
        match self {
            HostState::Access {
                port: awaited,
                id: asked,
            } => *awaited == port && *asked == id,
            _ => false,
        }
    }

    pub(crate) fn is_asleep(&self) -> bool
        ensures { result ≡ is_asleep self.now }
    {
        matches!(self, HostState::Asleep)
    }
}
