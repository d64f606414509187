//! The command `mirror`, tried whole, without its words.
#![tactic(auto)]

#[cfg(test)]
mod command_mirror_tests;
