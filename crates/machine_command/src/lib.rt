//! The commands of a program that serves a machine, whatever the machine is and whatever opens it: one session over the command's input
//! and output.
#![tactic(auto)]

mod opener;
mod session;

pub use opener::MachineOpener;
pub use session::{run_session, status_of};
