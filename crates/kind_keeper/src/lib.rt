//! A keeper in memory that has a list for each kind, so that a new row of one kind moves no row of another.
#![tactic(auto)]

mod keeper;
mod shelves;

pub use keeper::KindKeeper;
