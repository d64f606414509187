//! The store of a command of `poold`: pools are opened over it and go back to it, and a refused opening is said.
#![tactic(auto)]

mod faults;
mod store;

pub use faults::say_fault;
pub use store::PoolStore;
