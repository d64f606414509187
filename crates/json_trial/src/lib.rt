//! Bodies, tried in both ways: texts that are read, and answers that are written.
#![tactic(auto)]

#[cfg(test)]
mod tests;
