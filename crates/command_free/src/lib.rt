//! The command `free`: blocks come in, one to a line, and the available blocks of a block given them go out.
#![tactic(auto)]

mod free;
mod lines;
mod writing;

pub use free::{LineFault, available_are_fewest, free_has_one_answer, run_free};
