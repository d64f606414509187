//! Snapshot reads, tried whole: a feed, its looks, and connections of readers.
#![tactic(auto)]

#[cfg(test)]
mod tests;
