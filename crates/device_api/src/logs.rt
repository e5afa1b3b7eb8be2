ghost use Rattle.std.specs.Prelude.{◌≡◌, ◌++◌, ◌∷◌, [], OnOk};
ghost use Rattle.device_api.specs.World.{logged_at};

use crate::line_text::LineText;
use cs_base::items::Items;
use cs_base::no_memory::NoMemory;
use cs_base::time::Time;

/// A line that a component logged.
#[derive(Debug, Drop)]
pub struct Line {
    /// When it was logged.
    pub at: Time,
    /// Its text, without a line feed.
    pub text: LineText,
}

/// The lines of all components, one list for each, in the order of logging.
#[derive(Debug, Drop)]
pub struct Logs {
    pub lists: Items<Items<Line>>,
}
