//! SQLite files of the host, opened as keepers of pools.
#![tactic(auto)]

mod files;

pub use files::{HostPoolFiles, HostPools};
