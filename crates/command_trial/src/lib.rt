//! The commands, tried whole: their words, inputs and outputs, over a store in memory and a listener of lists.
#![tactic(auto)]

#[cfg(test)]
mod about_tests;
#[cfg(test)]
mod claims_tests;
#[cfg(test)]
mod command_files_tests;
#[cfg(test)]
mod line_tests;
#[cfg(test)]
mod migrate_tests;
#[cfg(test)]
mod mirror_tests;
#[cfg(test)]
mod session_tests;
#[cfg(test)]
mod store_tests;
#[cfg(test)]
mod tests;
