//! The register, tried over a keeper in memory: which tables are opened, and which are not; and the book of ranges alone.
#![tactic(auto)]

#[cfg(test)]
mod import_tests;
#[cfg(test)]
mod range_tests;
#[cfg(test)]
mod tests;
