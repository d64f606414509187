//! The store of a command over a register, as what opens a machine: a register is opened over it and goes back to it, and a refused opening
//! is said.
#![tactic(auto)]

mod store;

pub use store::RegisterStore;
