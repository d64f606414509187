//! Sessions over a machine, one that many connections share or one of their own. What a request asks of the machine, and the answer that
//! gives its reply, are defined by a service: so nothing here knows what the machine is.
#![tactic(auto)]

mod follower;
mod own;
mod service;
mod session;

pub use follower::{Follower, NoFollower};
pub use own::{OwnMachine, OwnSeat, serve_own, serve_own_by};
pub use service::{Service, Wanted};
pub use session::{SharedMachine, Sitting, serve_session};
