ghost use Rattle.std.specs.Prelude.{ℕ, List, ◌≡◌, ◌≤◌, ◌+◌};
ghost use Rattle.sb_message.specs.declared.message.Body.{Body};
ghost use Rattle.switch_sim.specs.Table.{SwitchState, learn};
ghost use Rattle.switch_sim.specs.Switch.{switch, IsSettledSwitch};
ghost use Rattle.switch_sim.specs.Alike.{IsAlike, ReactAlike};
ghost use Rattle.switch_sim.specs.Sightings.{IsMap, known_at, known_then};

/// Two switches that are alike from a time on do the same with whatever arrives from then on, and are alike again.
pub fn alike_switches_react_alike()
    ensures { (s other : SwitchState) (at t port : ℕ) (body : Body) → IsAlike at s other → at ≤ t
        → IsSettledSwitch s (t + 1) → IsSettledSwitch other (t + 1)
        → ReactAlike t (switch.take s t port body) (switch.take other t port body) }
{}

/// A switch is a map from addresses to where and when stations were seen, of at most 4,096 of them. A frame puts the
/// sighting of its source there, where that may be known, and changes no other; as time goes on, sightings age out.
pub fn a_switch_is_a_map()
    ensures map { (s : SwitchState) (t x : ℕ) → IsSettledSwitch s x → IsMap s t }
    ensures step { (s : SwitchState) (t port : ℕ) (from mac : List ℕ) → IsSettledSwitch s (t + 1)
        → known_at (learn s t from port) t mac ≡ known_then s t from port mac }
{}
