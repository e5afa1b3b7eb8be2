ghost use Rattle.std.specs.Prelude.{◌≡◌, ◌-◌, nat_lt};

use cs_base::mac::Mac;
use cs_base::time::Time;

/// What a switch knows of a station.
#[derive(Clone, Copy, Debug, PartialEq, Eq)]
pub struct Entry {
    /// The station's address.
    pub mac: Mac,
    /// The port at which it was last seen.
    pub port: u32,
    /// When it was last seen there.
    pub seen: Time,
}

impl Entry {
    /// Whether the entry is live at a time: less than the age has passed since the station was seen.
    pub(crate) fn is_live(&self, t: Time, age: Time) -> bool
        ensures { result ≡ nat_lt (t - self.now.seen) age }
    {
        t.0.saturating_sub(self.seen.0) < age.0
    }
}
