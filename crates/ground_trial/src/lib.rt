//! Tests by tables: addresses and blocks, their texts, and sets of addresses.
#![tactic(auto)]

#[cfg(test)]
mod inet_num_tests;
#[cfg(test)]
mod inet_text_tests;
#[cfg(test)]
mod span_set_tests;
