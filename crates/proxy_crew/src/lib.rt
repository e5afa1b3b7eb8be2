//! The channels of a run that go by proxy: both ends of each are made over the wires that a dialer gives, once each, in the
//! order of the channels' numbers.
#![tactic(auto)]

pub mod build_bad;
mod dialing;
pub mod dismissing;
mod ending;
mod engaging;
mod faults;
pub mod laws;
pub mod proxied;
pub mod route;

pub use build_bad::BuildBad;
pub use dialing::dial_all;
pub use dismissing::{Dismissed, dismiss};
pub use ending::wire_end;
pub use engaging::engage;
pub use laws::ends_stay_engaged;
pub use proxied::Proxied;
pub use route::Route;
