//! The words of the commands, tried line by line.
#![tactic(auto)]

#[cfg(test)]
mod ipam_words_tests;
#[cfg(test)]
mod tests;
