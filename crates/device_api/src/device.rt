ghost use Rattle.std.specs.Prelude.{◌≡◌, ◌+◌, ◌^◌, ◌<◌, ℕ, length, slice_get, Some, OnOk};
ghost use Rattle.sb_message.specs.Receivable.{MayReceive};
ghost use Rattle.device_api.specs.Behaviour.{Behaviour, IsLawful, IsNotPast};
ghost use Rattle.device_api.specs.Gives.{Gives};

use crate::effects::Effects;
use cs_base::no_memory::NoMemory;
use cs_base::port_kind::PortKind;
use cs_base::time::Time;
use sb_message::Body;
use std::alloc::Global;

/// A device: it reacts to what arrives at its ports and to its own due time. Its effects at one moment take
/// no time. After `NoMemory` it is spent: nothing is told of its state, and the run ends.
pub trait Device: Drop {
    /// The device as plain functions of its state.
    ghost behaviour: { Behaviour Self };

    /// That all events of the device were before a time. At its start that holds of 0.
    ghost settled: { Self → ℕ → Type 0 };

    /// How many ports it has, at most 32. The number never changes.
    fn ports(&self) -> u32
        ensures { result ≡ length (behaviour.ports self.now) };

    /// What a port speaks. It never changes.
    fn kind(&self, port: u32) -> PortKind
        requires { port < length (behaviour.ports self.now) }
        ensures { slice_get (behaviour.ports self.now) port ≡ Some result };

    /// When it is due by itself; None where it waits for what arrives.
    fn due(&self) -> Option<Time>
        ensures { result ≡ behaviour.due self.now };

    /// Takes what arrives at `t` on a port. What it sends and logs comes behind what `out` has.
    fn take(
        &mut self,
        alloc: Global,
        t: Time,
        port: u32,
        body: Body,
        out: &mut Effects,
    ) -> Result<(), NoMemory>
        requires receivable { MayReceive (behaviour.ports self.old) port body }
        requires not_past { IsNotPast t (behaviour.due self.old) }
        requires in_run { t < 10 ^ 15 }
        requires settled_then { settled self.old (t + 1) }
        ensures { OnOk result
            (Gives (behaviour.take self.old t port body) self.new out.old out.new) };

    /// Does what it does at its due time. What it sends and logs comes behind what `out` has.
    fn tick(&mut self, alloc: Global, t: Time, out: &mut Effects) -> Result<(), NoMemory>
        requires due_now { behaviour.due self.old ≡ Some t }
        requires in_run { t < 10 ^ 15 }
        requires settled_then { settled self.old (t + 1) }
        ensures { OnOk result (Gives (behaviour.tick self.old t) self.new out.old out.new) };

    ghost lawful: { IsLawful behaviour settled };
}
