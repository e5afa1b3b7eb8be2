ghost use Rattle.std.specs.Prelude.{◌≡◌, ◌≤◌, ◌<◌, length, IfOk, OnOk, OnErr, option_map};
ghost use Rattle.cs_base.specs.Outside.{SinkSeen, Rose, written_after};

use crate::no_memory::Failed;

/// A stream that takes bytes in pieces. What was written may be told to contracts or not; the real streams
/// tell nothing.
pub trait Sink {
    /// What the sink tells of itself: what was written, how many writes failed.
    ghost seen: { Self → SinkSeen };

    /// How many writes have failed; at 2^64 - 1 the count stands still. It never falls.
    fn faults(&self) -> u64
        ensures { result ≡ (seen self.now).faults };

    /// Takes at least one of the bytes, from the front, and says how many; the count of faults stays. `Failed`
    /// comes only where the count rose; then nothing was taken.
    fn write(&mut self, bytes: &[u8]) -> Result<usize, Failed>
        requires { 0 < length bytes.now }
        ensures some { IfOk result (λ n. 1 ≤ n) }
        ensures within { IfOk result (λ n. n ≤ length bytes.now) }
        ensures taken { IfOk result (λ n. (seen self.new).written
            ≡ option_map (written_after n bytes.now) (seen self.old).written) }
        ensures refused { OnErr result ((seen self.new).written ≡ (seen self.old).written) }
        ensures never_falls { (seen self.old).faults ≤ (seen self.new).faults }
        ensures no_fault { OnOk result ((seen self.new).faults ≡ (seen self.old).faults) }
        ensures failed { OnErr result (Rose (seen self.old).faults (seen self.new).faults) };
}
