//! SQLite files of the host, opened as keepers of a register.
#![tactic(auto)]

mod files;

pub use files::{HostFiles, HostKeeper};
