ghost use Rattle.std.specs.Prelude.{◌≡◌, ◌+◌, ◌%◌, ◌^◌, ◌↔◌, ℕ, IfOk, IfErr, IsTrue};
ghost use Rattle.worker_rounds.specs.declared.mesh_bad.MeshBad.{MeshBad};

use crate::mesh_bad::MeshBad;
use std::alloc::Global;

/// What a worker turns, again and again.
pub trait Member {
    /// What stands between two turns.
    ghost fits: { Self → Type 0 };

    /// What a turn does.
    ghost does: { Self → Self → Type 0 };

    /// What a turn leaves that meets a fault.
    ghost fails: { Self → MeshBad → Self → Type 0 };

    /// That nothing is left to do but to take what still comes in.
    ghost ended: { Self → Type 0 };

    /// The number of its turns, modulo 2^64.
    ghost turns: { Self → ℕ };

    /// How many of its latest turns in a row moved nothing, 64 at most.
    ghost still: { Self → ℕ };

    /// Makes a turn. After a fault it is spent.
    fn turn(&mut self, alloc: Global) -> Result<(), MeshBad>
        requires { fits self.old }
        ensures turned { IfOk result (λ _. does self.old self.new) }
        ensures failed { IfErr result (λ fault. fails self.old fault self.new) };

    /// How many of its latest turns in a row moved nothing, 64 at most.
    fn still(&self) -> u32
        ensures { result ≡ still self.now };

    /// Whether nothing is left to do but to take what still comes in.
    fn ended(&self) -> bool
        ensures { IsTrue result ↔ ended self.now };

    /// A turn keeps what stands between turns.
    ghost keeps: { (a b : Self) → does a b → fits a → fits b };

    /// A turn is counted.
    ghost counts: { (a b : Self) → does a b → turns b ≡ (turns a + 1) % 2 ^ 64 };
}
