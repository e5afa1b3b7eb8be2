//! How much there is of all components and of all channels. A number above 2^64 - 1 stands as 2^64 - 1.
ghost use Rattle.std.specs.Prelude.{◌≡◌};
ghost use Rattle.load_run.specs.Summary.{lines_in, syncs_in, sends_in};

use cs_base::Items;
use device_api::{Count, Line};

/// The lines of all logs.
pub fn lines_in(logs: &[Items<Line>]) -> u64
    ensures { result ≡ lines_in logs.now }
{
    let mut sum = 0u64;
    for log in logs {
        sum = sum.saturating_add(log.len() as u64);
    }
    sum
}

/// The null messages of all channels.
pub fn syncs_in(counts: &[Count]) -> u64
    ensures { result ≡ syncs_in counts.now }
{
    let mut sum = 0u64;
    for count in counts {
        sum = sum.saturating_add(count.syncs);
    }
    sum
}

/// The events of all channels.
pub fn sends_in(counts: &[Count]) -> u64
    ensures { result ≡ sends_in counts.now }
{
    let mut sum = 0u64;
    for count in counts {
        sum = sum.saturating_add(count.sends);
    }
    sum
}
