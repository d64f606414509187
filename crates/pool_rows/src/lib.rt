//! The rows of pools in memory: ranges and members in the order of their ids, and one space of IPv6 that holds the numbers of all
//! members, so that free numbers are found without a look at the members.
#![tactic(auto)]

mod keys;
mod opening;
mod rows;

pub use keys::key_at;
pub use rows::PoolRows;
