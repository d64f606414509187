//! The command `mirror` over a store: the operator's session over the input and the output, and next to it readers of what is published.
#![tactic(auto)]

mod lanes;
mod mirrored;
mod prepared;
mod readers;
mod register;
mod run;
mod together;

pub use run::run_mirror;
