//! The query of a target: its parameters, the filter of a list, and the links to other pages.
#![tactic(auto)]

mod address;
mod aggregate;
mod asked;
mod laws;
mod lists;
mod numbers;
mod place;
mod prefix;
mod query;
mod range;
mod readings;
mod rir;
mod role;
mod vrf;

pub use asked::{Available, Listing};
pub use laws::{limit_is_one, listing_is_one};
pub use lists::{link_query, read_limit, read_listing, read_offset};
pub use numbers::number_below;
pub use place::place_at;
pub use query::{cut, parameter_value};
pub use readings::row_test;
