//! Lanes in memory whose connections meet: the first read of each waits until all have come, so that whoever serves them one after another
//! is seen. For tests of what is built on them.
#![tactic(auto)]

mod lane;
mod listener;
mod meeting;

pub use lane::{MeetingLane, MeetingSource};
pub use listener::MeetingListener;
pub use meeting::Meeting;
