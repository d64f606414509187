//! The command `session` over a store: one connection over the input and the output, with a register that is opened over it.
#![tactic(auto)]

mod session;

pub use session::run_session;
