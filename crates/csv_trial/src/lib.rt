//! Files of records, read and written again by the crate of imports.
#![tactic(auto)]

#[cfg(test)]
mod csv_import_tests;
