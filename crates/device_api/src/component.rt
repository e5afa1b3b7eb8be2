ghost use Rattle.std.specs.Prelude.{◌≡◌, ◌++◌, [], OnOk};
ghost use Rattle.device_api.specs.World.{logged_at};

use crate::line_text::LineText;
use crate::logs::Line;
use cs_base::items::Items;
use cs_base::no_memory::NoMemory;
use cs_base::time::Time;

/// A component: its device and what it has logged.
#[derive(Drop)]
pub struct Component<V> {
    pub device: V,
    pub log: Items<Line>,
}

/// Moves lines that were logged at a time to the end of a log, in order. The list that they leave keeps its room.
pub fn log_all(t: Time, lines: &mut Items<LineText>, log: &mut Items<Line>) -> Result<(), NoMemory>
    ensures logged { OnOk result (log.new ≡ log.old ++ logged_at t lines.old) }
    ensures emptied { OnOk result (lines.new ≡ []) }
{
    lines.reverse();
    'lines: while let Some(text) = lines.pop() {
        log.push(Line { at: t, text })?;
    }
    Ok(())
}
