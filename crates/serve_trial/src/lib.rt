//! The command `serve`, tried whole, with its own words and without the others.
#![tactic(auto)]

#[cfg(test)]
mod command_serve_tests;
