//! The VRFs and the prefixes of a register, on tables that have no other rows: they take in each update, and answer what depends on
//! these two kinds alone.
#![tactic(auto)]

mod changes;
mod checks;
mod filling;
mod rows;

pub use changes::listed;
pub use rows::{SnapshotRows, lists_follow, lists_follow_history};
