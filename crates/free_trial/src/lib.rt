//! The command `free` tried line by line, over objects in memory.
#![tactic(auto)]

#[cfg(test)]
mod command_free_tests;
