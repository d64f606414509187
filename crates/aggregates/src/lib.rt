//! The kinds that others refer to: RIRs, roles and aggregates, each as a book of rows in the order of their ids, and the rules that it
//! answers of them.
#![tactic(auto)]

mod blocks;
mod rirs;
mod roles;

pub use blocks::{AggregateBook, AggregateRules};
pub use rirs::{RirBook, RirRules};
pub use roles::{RoleBook, RoleRules};
