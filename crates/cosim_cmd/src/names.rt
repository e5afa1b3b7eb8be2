//! The names of components.
ghost use Rattle.std.specs.Prelude.{◌≡◌, IfOk};
ghost use Rattle.topology_file.specs.Ports.{names_of};

use cs_base::{Name, NoMemory};
use std::alloc::Global;
use topology_file::Component;

/// The names of a topology's components, in order.
pub fn names_of(alloc: Global, components: &[Component]) -> Result<Vec<Name>, NoMemory>
    ensures { IfOk result (λ names. names.items ≡ names_of components.now) }
{
    let mut names = Vec::with_capacity(alloc, components.len())?;
    for component in components {
        names.push(component.name)?;
    }
    Ok(names)
}
