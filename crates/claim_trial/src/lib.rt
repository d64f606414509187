//! Availability, claims and figures, tried on worked cases over a tree and over a list of blocks.
#![tactic(auto)]

#[cfg(test)]
mod tests;
