//! That runners may go to threads, and that they can be made.

use crate::{PortPlan, RunBad, Runner};
use device_api::Beacon;

/// That threads may be handed a value of this type.
fn is_sent<T: Send>() {}

#[test]
fn runners_may_go_to_threads(_rt: HostRuntime) {
    is_sent::<Runner<Beacon>>();
    is_sent::<PortPlan>();
    is_sent::<RunBad>();
}
