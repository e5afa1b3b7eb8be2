ghost use Rattle.std.specs.Prelude.{◌≡◌, ◌≢◌, ◌+◌, ◌*◌, ◌/◌, ◌≤◌, ◌<◌, ◌^◌, ℕ, length, drop, get_or, slice_set, IfSome};
ghost use Rattle.moment_tree.specs.Keys.{due_of, IsNode, IsOwn, IsAnother};

use cs_base::time::Time;

/// The key of no moment, which is after all others.
pub const NEVER: u64 = 18_446_744_073_709_551_615;

/// The key of a component's moment: moments are in the order of their keys.
pub fn key_of(component: u32, due: Option<Time>) -> u64
    requires few { component < 64 }
    requires short { IfSome due (λ at. at < 2 ^ 57) }
    ensures own { IsOwn result component }
    ensures due { due_of result ≡ due }
{
    match due {
        Some(at) => at.picoseconds() * 64 + u64::from(component),
        None => NEVER,
    }
}

/// Puts the key of one of some components into a tree.
pub fn place(keys: &mut [u64], components: usize, component: usize, key: u64)
    requires sized { length keys.old ≡ 2 * components }
    requires few { components ≤ 64 }
    requires within { component < components }
    requires nodes { (j : ℕ) → 1 ≤ j → j < components → IsNode keys.old j }
    ensures nodes { (j : ℕ) → 1 ≤ j → j < components → IsNode keys.new j }
    ensures placed { drop components keys.new ≡ slice_set (drop components keys.old) component key }
{
    let mut node = components + component;
    let mut least = key;
    keys[node] = key;
    while node > 1 {
        let above = node / 2;
        least = least.min(keys[beside(node)]);
        keys[above] = least;
        node = above;
    }
}

/// The least key of the other components, or `NEVER` where there is none.
pub fn least_beside(keys: &[u64], components: usize, component: usize) -> u64
    requires sized { length keys.now ≡ 2 * components }
    requires few { components ≤ 64 }
    requires within { component < components }
    requires nodes { (j : ℕ) → 1 ≤ j → j < components → IsNode keys.now j }
    ensures low { (d : ℕ) → d < components → d ≢ component → result ≤ get_or keys.now (components + d) 0 }
    ensures another { IsAnother components component keys.now result }
{
    let mut node = components + component;
    let mut least = NEVER;
    while node > 1 {
        least = least.min(keys[beside(node)]);
        node /= 2;
    }
    least
}

/// The other place below the same place.
fn beside(node: usize) -> usize
    requires below_some { 2 ≤ node }
    requires few { node < 128 }
    ensures { result + node ≡ 4 * (node / 2) + 1 }
{
    node ^ 1
}
