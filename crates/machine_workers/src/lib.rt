//! Workers that serve connections over one shared machine, each with a lane and its own seat.
#![tactic(auto)]

mod workers;

pub use workers::{Worker, work};
