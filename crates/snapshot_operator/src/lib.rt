//! The operator's session over its own register: each accepted change is published to readers before it is answered.
#![tactic(auto)]

mod begin;
mod laws;
mod publisher;
mod session;

pub use begin::begin_feed;
pub use laws::numbers_are_states;
pub use publisher::Publisher;
pub use session::{Operated, serve_operator};
