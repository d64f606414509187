//! Sessions over the connections of a lane, by any request handler: the loop of one worker, and the lanes that workers take from a
//! listener and give back.
#![tactic(auto)]

mod lanes;
mod listening;
mod taking;

pub use lanes::serve_lane;
pub use listening::Listening;
pub use taking::{give_back_lanes, take_lanes};
