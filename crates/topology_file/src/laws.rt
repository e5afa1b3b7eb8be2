//! Laws of what a topology file says.
ghost use Rattle.std.specs.Prelude.{◌≡◌, ℕ, List};
ghost use Rattle.topology_file.specs.declared.topology.Topology.{Topology};
ghost use Rattle.topology_file.specs.Reading.{IsTopologyText};

/// A text spells at most one topology.
pub fn one_topology()
    ensures { (bytes : List ℕ) (t other : Topology) →
        IsTopologyText bytes t → IsTopologyText bytes other → t ≡ other }
{}
