//! The components of a document, in order.
ghost use Rattle.std.specs.Prelude.{◌≡◌, ◌≤◌, length, map, []};
ghost use Rattle.std.specs.List.{AllZip};
ghost use Rattle.toml.specs.View.{view};
ghost use Rattle.topology_file.specs.Ports.{names_of};
ghost use Rattle.topology_file.specs.Faults.{component_fault};
ghost use Rattle.topology_file.specs.Refusals.{at_entry, components_refusal};
ghost use Rattle.topology_file.specs.Spelled.{SpellsComponent};
ghost use Rattle.topology_file.specs.Reading.{Gives};

use crate::build;
use crate::component::Component;
use crate::faults::component_fault;
use crate::reason::{Entry, TopoBad};
use cs_base::Items;
use std::alloc::Global;
use toml::Value;

/// The component that an entry spells after other components.
fn component(alloc: Global, components: &[Component], entry: &Value) -> Result<Component, TopoBad>
    requires { length components.now ≤ 64 }
    ensures { Gives (at_entry (Entry.Component (length components.now))
        (component_fault (names_of components.now) (view entry.now)))
        (SpellsComponent (view entry.now)) result }
{
    if let Some(reason) = component_fault(components, entry) {
        return Err(TopoBad::At {
            reason,
            entry: Entry::Component(components.len() as u32),
        });
    }
    Ok(build::component(alloc, entry)?)
}

/// The components that the entries spell.
pub(crate) fn components(alloc: Global, entries: &[Value]) -> Result<Items<Component>, TopoBad>
    requires { length entries.now ≤ 64 }
    ensures { Gives (components_refusal 0 [] (map view entries.now))
        (AllZip SpellsComponent (map view entries.now)) result }
{
    let mut components = Items::new(alloc);
    for entry in entries {
        let component = component(alloc, components.as_slice(), entry)?;
        components.push(component)?;
    }
    Ok(components)
}
