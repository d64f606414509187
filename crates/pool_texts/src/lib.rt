//! The commands `export` and `report` of `poold`.
#![tactic(auto)]

mod loading;
mod print;

pub use print::run_print;
