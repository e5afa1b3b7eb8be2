//! Masks of a component's first 32 ports.
ghost use Rattle.std.specs.Prelude.{◌≡◌, ◌≢◌, ◌≤◌, ◌<◌, ℕ, IsTrue};
ghost use Rattle.std.specs.Int.{bit_at};
ghost use Rattle.global_model.specs.PortMarks.{IsUnmarked};

/// The mask in which a port has a 1 where something waits there, and else a 0.
pub fn marked(mask: u32, port: u32, waits: bool) -> u32
    ensures own { port < 32 → IsTrue waits → bit_at result port ≡ 1 }
    ensures others { (p : ℕ) → p < 32 → p ≢ port → bit_at result p ≡ bit_at mask p }
{
    if port >= 32 {
        return mask;
    }
    if waits {
        mask | 1 << port
    } else {
        mask & !(1 << port)
    }
}

/// The first port from one on that may have a 1.
pub fn next_marked(mask: u32, from: u32) -> u32
    ensures later { from ≤ result }
    ensures below { 32 < result → result ≡ from }
    ensures unmarked { IsUnmarked mask from result }
{
    if from >= 32 {
        return from;
    }
    let rest = mask >> from;
    if rest == 0 {
        return 32;
    }
    (from + rest.trailing_zeros()).min(32)
}
