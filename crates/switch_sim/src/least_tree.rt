ghost use Rattle.std.specs.Prelude.{◌≡◌, ◌<◌, ◌≤◌, IfOk, position, nat_le, replicate, slice_set, slice_index, drop, length, min};
ghost use Rattle.switch_sim.specs.LeastTree.{IsLeastTree, Lowers};

use cs_base::no_memory::NoMemory;
use std::alloc::Global;
use std::marker::Model;

const LEVELS: usize = 12;

const LEAVES: usize = 4096;

/// A number at each of 4,096 places, among which the first that is at most a limit is found in twelve steps.
///
/// It is a complete binary tree: node 1 is the root, the children of node `i` are the nodes `2 * i` and `2 * i + 1`, and
/// the nodes from 4,096 on are the leaves, one for each place. A node that is no leaf holds the lesser number of its
/// children.
#[derive(Debug, Drop)]
pub struct LeastTree {
    nodes: Vec<u64>,
}

impl Model for LeastTree {
    ghost use Rattle.std.specs.Prelude.{List, ℕ, drop};
    ghost use Rattle.switch_sim.specs.LeastTree.{IsLeastTree};

    ghost Value = { List ℕ };

    ghost view = { λ tree. drop 4096 tree.nodes.items };

    ghost invariant = { λ tree. IsLeastTree tree.nodes.items };
}

/// Puts a number at a leaf, and mends the nodes on the way from there to the root.
fn set_leaf(nodes: &mut [u64], place: usize, value: u64)
    requires tree { IsLeastTree nodes.old }
    requires place { place < 4096 }
    ensures tree { IsLeastTree nodes.new }
    ensures leaves { drop 4096 nodes.new ≡ slice_set (drop 4096 nodes.old) place value }
{
    let mut node = LEAVES + place;
    nodes[node] = value;
    while node > 1 {
        node /= 2;
        nodes[node] = nodes[2 * node].min(nodes[2 * node + 1]);
    }
}

/// The first leaf whose number is at most a limit; None where there is none.
fn first_leaf(nodes: &[u64], limit: u64) -> Option<usize>
    requires { IsLeastTree nodes.now }
    ensures { result ≡ position (λ n. nat_le n limit) (drop 4096 nodes.now) }
{
    if nodes[1] > limit {
        return None;
    }
    let mut node = 1;
    for _level in 0..LEVELS {
        node = lower(nodes, node, limit);
    }
    Some(node - LEAVES)
}

/// The first child of a node that holds a number which is at most a limit.
fn lower(nodes: &[u64], node: usize, limit: u64) -> usize
    requires tree { IsLeastTree nodes.now }
    requires above { 1 ≤ node }
    requires inner { node < 4096 }
    requires low { slice_index nodes.now node ≤ limit }
    ensures low { slice_index nodes.now result ≤ limit }
    ensures first { Lowers nodes.now node limit result }
{
    if nodes[2 * node] <= limit {
        2 * node
    } else {
        2 * node + 1
    }
}

impl LeastTree {
    /// A tree with 0 at each place.
    pub fn new(alloc: Global) -> Result<LeastTree, NoMemory>
        ensures { IfOk result (λ tree. tree ≡ replicate 4096 0) }
    {
        Ok(LeastTree {
            nodes: vec![in alloc; 0; 2 * LEAVES]?,
        })
    }

    /// Puts a number at a place.
    pub fn set(&mut self, place: usize, value: u64)
        requires { place < 4096 }
        ensures { self.new ≡ slice_set self.old place value }
    {
        set_leaf(self.nodes.as_mut_slice(), place, value);
    }

    /// The first place whose number is at most a limit; None where there is none.
    pub fn first_at_most(&self, limit: u64) -> Option<usize>
        ensures { result ≡ position (λ n. nat_le n limit) self.now }
    {
        first_leaf(self.nodes.as_slice(), limit)
    }
}
