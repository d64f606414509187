//! Keepers of stored pools, which hold the ranges and members when the program has ended, and openers, which start keepers.
#![tactic(auto)]

pub mod keeper;
pub mod memory;
pub mod opener;
mod rows;
pub mod tables;
