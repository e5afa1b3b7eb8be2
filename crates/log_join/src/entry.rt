ghost use Rattle.std.specs.Prelude.{◌≡◌, length, IfOk};
ghost use Rattle.log_join.specs.Entries.{AreAll};

use cs_base::name::Name;
use cs_base::no_memory::NoMemory;
use device_api::{Line, Logs};
use std::alloc::Global;

/// A line, and the name of the component that logged it.
#[derive(Clone, Copy)]
pub(crate) struct Entry<'a> {
    pub(crate) name: &'a Name,
    pub(crate) line: &'a Line,
}

/// The lines of all components: one component after another, each in the order of its log.
pub(crate) fn entries_of<'a>(
    alloc: Global,
    logs: &'a Logs,
    names: &'a [Name],
) -> Result<Vec<Entry<'a>>, NoMemory>
    requires { length names.now ≡ length logs.now.lists }
    ensures { IfOk result (λ entries. AreAll names.now logs.now.lists entries.items) }
{
    let mut entries = Vec::new(alloc);
    'logs: for (name, log) in names.iter().zip(logs.lists.as_slice()) {
        'lines: for line in log.as_slice() {
            entries.push(Entry { name, line })?;
        }
    }
    Ok(entries)
}
