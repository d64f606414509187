//! A shared machine, served to the connections of a listener: its workers are hired, and dismissed again, and all that they
//! answered is out of one history.
#![tactic(auto)]

mod hiring;
mod serving;

pub use serving::{close_all, open_all};
