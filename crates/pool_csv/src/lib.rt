//! Pools as comma-separated values.
#![tactic(auto)]

mod exports;

pub use exports::{members_text, ranges_text};
