//! What the commands that open a register share: the keeper of a store is started, a register is opened over it, and a refused opening is said.
#![tactic(auto)]

mod fault_words;
mod opening;

pub use opening::{file_path, open_store, path_of, say_fault, start_keeper};
