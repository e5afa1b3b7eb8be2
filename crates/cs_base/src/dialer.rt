ghost use Rattle.std.specs.Prelude.{◌≡◌, ◌≤◌, IfOk, OnOk, option_map};
ghost use Rattle.cs_base.specs.Outside.{Rose};
ghost use Rattle.cs_base.specs.Wires.{DialerSeen, IsFreshOut, IsFreshIn, dialed_after};

use crate::no_memory::NoMemory;
use crate::wires::{WireIn, WireOut};
use std::alloc::Global;
use thiserror::Error;

/// Why a wire can't be made.
#[derive(Clone, Copy, Debug, PartialEq, Eq, Hash, Error)]
pub enum DialBad {
    /// The dial failed, and the count of faults rose.
    #[error("the channel can't be dialed")]
    Failed,
    /// Memory is wanting.
    #[error("no memory")]
    NoMemory,
}

impl From<NoMemory> for DialBad {
    ghost use Rattle.cs_base.specs.declared.dialer.DialBad.TheVariants.{NoMemory};

    ghost from_gives = { λ _ bad. bad ≡ NoMemory };

    fn from(_error: NoMemory) -> DialBad {
        DialBad::NoMemory
    }
}

/// What makes the wires of proxied channels. Which channels were dialed may be told to contracts or not; real
/// sockets tell nothing.
pub trait Dialer {
    /// The end of a wire at the channel's sender.
    type Out: WireOut;

    /// The end of a wire at the channel's receiver.
    type In: WireIn;

    /// What the dialer tells of itself: which channels were dialed, how many dials failed.
    ghost seen: { Self → DialerSeen };

    /// How many dials have failed; at 2^64 - 1 the count stands still. It never falls.
    fn faults(&self) -> u64
        ensures { result ≡ (seen self.now).faults };

    /// Makes the wire of a channel: both of its ends, through which nothing has gone yet; the count of faults stays.
    /// `Failed` comes only where the count rose.
    fn dial(&mut self, alloc: Global, channel: u32) -> Result<(Self::Out, Self::In), DialBad>
        ensures out { IfOk result (λ wires. IsFreshOut (Self.Out.seen wires.0)) }
        ensures wire { IfOk result (λ wires. IsFreshIn (Self.In.seen wires.1)) }
        ensures dialed { (seen self.new).dialed
            ≡ option_map (dialed_after result channel) (seen self.old).dialed }
        ensures never_falls { (seen self.old).faults ≤ (seen self.new).faults }
        ensures no_fault { OnOk result ((seen self.new).faults ≡ (seen self.old).faults) }
        ensures failed { result ≡ Err DialBad.Failed
            → Rose (seen self.old).faults (seen self.new).faults };
}
