//! One connection, tried: tables of inputs and what is written for each.
#![tactic(auto)]

#[cfg(test)]
mod http_session_tests;
