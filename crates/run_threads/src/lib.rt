//! A run on threads: the queues between the components, the workers that turn them, and what is left when all have ended.
#![tactic(auto)]

mod build;
mod closing;
pub mod crew;
mod dealing;
mod ends;
mod finish;
pub mod laws;
mod merging;
mod numbers;
pub mod part;
mod parting;
pub mod queues;
mod routes;
mod seats;
mod sharing;
mod stock;

pub use crew::{Crew, run_mesh};
pub use laws::{
    a_crew_is_seated, a_fault_has_its_cause, an_ended_crew_leaves_the_global_run,
    queues_without_proxies_are_one_a_channel, rounds_keep_a_crew_standing,
    rounds_send_introductions_first, sides_merge, whatever_comes_leaves_parts_seated,
};
pub use part::Part;
pub use proxy_crew::BuildBad;
pub use queues::Queues;
pub use worker_rounds::{MeshBad, RoundEnd, Worker};
