//! Rows, states and changes as they are stored: rows as texts, tables of all rows with the next ids, and changes of them.
#![tactic(auto)]

mod address;
mod aggregate;
mod columns;
pub mod laws;
pub mod migration;
pub mod opening;
mod prefix;
mod range;
pub mod reading;
mod rir;
mod role;
pub mod tables;
mod vrf;
mod word;
pub mod writing;
