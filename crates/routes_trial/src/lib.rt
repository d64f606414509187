//! Requests, tried from their targets to their calls, and replies to their answers.
#![tactic(auto)]

#[cfg(test)]
mod tests;
