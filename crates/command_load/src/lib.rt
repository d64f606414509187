//! The command `load`: many workers claim addresses of one prefix of a register in memory, one by one.
#![tactic(auto)]

mod calls;
mod claims;
mod figures;
pub mod laws;
mod length;
mod load_outcome;
mod run;
mod tally;
mod workers;

pub use run::run_load;
