//! The logs of all components, joined into one text by time.
#![tactic(auto)]

ghost use Rattle.std.specs.Prelude.{◌≡◌, length, IfOk};
ghost use Rattle.log_join.specs.Before.{IsJoined};

mod entry;
mod merge;
mod text;

use crate::entry::entries_of;
use crate::merge::{merge_room, merged};
use crate::text::text_of;
use cs_base::items::Octets;
use cs_base::name::Name;
use cs_base::no_memory::NoMemory;
use device_api::Logs;
use std::alloc::Global;

/// The text of all lines: ordered by time, then by component, then by place in the component's log. Each line is
/// its time in picoseconds as a decimal number, a space, the component's name, a space, what was logged and a line
/// feed. There is one name for each list, and a list need not be in the order of time. `NoMemory` comes only where
/// memory is wanting.
pub fn join(alloc: Global, logs: &Logs, names: &[Name]) -> Result<Octets, NoMemory>
    requires { length names.now ≡ length logs.now.lists }
    ensures { IfOk result (IsJoined names.now logs.now.lists) }
{
    let lists = logs.lists.as_slice();
    match merge_room(lists, names) {
        Some(room) => merged(alloc, lists, names, room),
        None => sorted(alloc, logs, names),
    }
}

/// The joined text of any logs: all lines are sorted by time.
fn sorted(alloc: Global, logs: &Logs, names: &[Name]) -> Result<Octets, NoMemory>
    requires { length names.now ≡ length logs.now.lists }
    ensures { IfOk result (IsJoined names.now logs.now.lists) }
{
    let mut entries = entries_of(alloc, logs, names)?;
    entries.sort_by_key(|entry| entry.line.at.picoseconds())?;
    text_of(alloc, entries.as_slice())
}

#[cfg(test)]
mod tests;
