//! Spaces that are stored in different ways, compared with each other: after the same changes they answer alike.
#![tactic(auto)]

#[cfg(test)]
mod changes;
#[cfg(test)]
mod radix_tree_tests;
#[cfg(test)]
mod tests;
