ghost use Rattle.cs_base.specs.Configs.{IsBeacon};

use crate::mac::Mac;
use crate::time::Time;

/// What a beacon sends: frame `k`, counted from 0, at `first + k * period`.
#[derive(Clone, Copy, Debug, PartialEq, Eq)]
pub struct BeaconConfig {
    /// When the first frame is sent: at most 10^15 picoseconds.
    pub first: Time,
    /// The time from frame to frame: 1 to 10^15 picoseconds.
    pub period: Time,
    /// How many frames are sent: at most 10^9.
    pub count: u32,
    /// The length of each frame: 14 to 1,514 bytes.
    pub length: u32,
    /// The destination.
    pub to: Mac,
    /// The source, an individual address.
    pub from: Mac,
    pub ghost valid: { IsBeacon first period count length from },
}
