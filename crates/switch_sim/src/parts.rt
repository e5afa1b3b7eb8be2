ghost use Rattle.std.specs.Prelude.{◌≡◌, ◌↔◌, IsTrue, IfOk, true, All, take};
ghost use Rattle.switch_sim.specs.declared.entry.Entry.{Entry};
ghost use Rattle.switch_sim.specs.Table.{started};
ghost use Rattle.switch_sim.specs.Parts.{Ascend, resumed, may_have, StandsAt};

use crate::entry::Entry;
use crate::table::PLACES;
use cs_base::configs::SwitchConfig;
use cs_base::items::Items;
use cs_base::time::Time;

/// What is kept of a switch beside its configuration, so that it can be made again.
#[derive(Debug, Drop)]
pub struct SwitchParts {
    /// The live entries, in ascending order of their addresses.
    pub entries: Items<Entry>,
}

impl SwitchParts {
    /// Whether a switch of the configuration may have these entries before all events at `at`: at most 4,096 in
    /// ascending order of their individual addresses, each seen before `at` at a port that exists, and still live.
    pub fn is_valid(&self, config: &SwitchConfig, at: Time) -> bool
        ensures { IsTrue result ↔ StandsAt at (resumed config.now self.now) }
    {
        let entries = self.entries.as_slice();
        entries.len() <= PLACES && ascend(entries) && all_live(config, at, entries)
    }
}

/// Whether entries stand in ascending order of their addresses, each address once.
fn ascend(entries: &[Entry]) -> bool
    ensures { IsTrue result ↔ Ascend entries.now }
{
    entries.is_sorted_by(|entry, next| entry.mac < next.mac)
}

/// Whether a switch may have an entry live at a time, before all events then.
fn may_have(config: &SwitchConfig, at: Time, entry: &Entry) -> bool
    ensures { result ≡ may_have (started config.now) at entry.now }
{
    entry.mac.is_individual()
        && entry.port < config.ports
        && entry.seen.0 < at.0
        && entry.is_live(at, config.age)
}

fn all_live(config: &SwitchConfig, at: Time, entries: &[Entry]) -> bool
    ensures { IsTrue result
        ↔ All (λ (e : Entry). may_have (started config.now) at e ≡ true) entries.now }
{
    entries.iter().all(|entry| may_have(config, at, entry))
}
