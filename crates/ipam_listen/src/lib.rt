//! Where connections come from: a listener is bound to a place and hands out lanes, a lane hands out connections one after another
//! and takes them back, and a gate is before and after each session.
#![tactic(auto)]

mod gate;
mod lane;
mod list_lane;
mod list_listener;
mod listener;
mod mark;
mod patience;
mod tcp;

pub use gate::{Gate, OpenGate};
pub use lane::Lane;
pub use list_lane::{Handed, ListLane};
pub use list_listener::ListListener;
pub use listener::Listener;
pub use tcp::{TcpDoor, TcpDoors, TcpIn, TcpOut};
