//! What the programs share of their entry: a process has the arguments that the system gave, the words among them, and the standard streams.
#![tactic(auto)]

mod about;
mod begin;
mod promise;
mod streams;

pub use about::{VERSION, print_text, version_line};
pub use begin::{arguments, words};
pub use promise::Program;
pub use streams::{Standard, Three, standard};
