//! The command `migrate`: a file of version 1 becomes one of this program's version.
#![tactic(auto)]

mod migrate;

pub use migrate::run_migrate;
