//! The command `serve` over a store: a register that is served to the connections of a listener, the count of its changes, and the words
//! of a refused opening.
#![tactic(auto)]

mod serve;
mod workers;

pub use serve::run_serve;
