//! Stored pools that are opened: what is wrong with their tables, if anything, or the rows that they represent.
#![tactic(auto)]

mod faults;
pub mod laws;
mod passes;
mod rules;

pub use faults::{PoolFault, opened};
pub use rules::{has_name, in_bounds, same_kind};
