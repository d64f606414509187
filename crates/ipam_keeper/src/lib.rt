//! Keepers of stored tables, which hold the rows of a register when the program has ended, and openers, which start keepers.
#![tactic(auto)]

pub mod empty;
pub mod keeper;
pub mod memory;
pub mod opener;
pub mod places;
pub mod unkept;
