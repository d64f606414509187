//! Rows, how they are stored, and who keeps them, tried without a database.
#![tactic(auto)]

#[cfg(test)]
mod ipam_data_tests;
#[cfg(test)]
mod ipam_keeper_tests;
#[cfg(test)]
mod stored_tables_tests;
