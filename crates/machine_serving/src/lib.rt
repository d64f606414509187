//! The command `serve` of a program that serves a machine, whatever the machine is and whatever opens it: what is before its workers
//! start and after their end, and what is printed and said. The workers' threads are started by the program itself, between the two.
#![tactic(auto)]

mod begin;
mod count;
mod ending;
mod finish;
mod patience;
mod unserved;

pub use begin::{Begun, begin_serve};
pub use count::say_entries;
pub use ending::{Served, Unserved};
pub use finish::finish_serve;
pub use patience::{PATIENCE, limits_are};
pub use unserved::say_unserved;
