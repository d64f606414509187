//! The register over a keeper of stored tables, one call at a time: `act` answers each call as the plain step of `ipam_data` does,
//! and an accepted change is stored by the keeper before it is made. `open` makes a register of stored tables.
#![tactic(auto)]

mod books;
mod copies;
mod dispatch;
mod log;
mod machine;
mod opening;
mod passes;
mod register;
mod stop;

pub use log::Entry;
pub use machine::SeenState;
pub use opening::open;
pub use register::{Register, Settings, begin};
pub use register_plans::{prefix_answer, vrf_answer};
