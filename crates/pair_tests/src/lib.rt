//! Two beacons that are joined by a link: what the global simulator, meshes and crews on workers make of them.
#![tactic(auto)]

#[cfg(test)]
mod on_workers;
#[cfg(test)]
mod pair;
#[cfg(test)]
mod simulated;
#[cfg(test)]
mod stepped;
