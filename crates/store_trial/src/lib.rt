//! The stores over SQLite, tried on databases in memory and on a file of the host: what is stored, loaded and refused, of a register and of
//! pools, also if a file stops at a call.
#![tactic(auto)]

#[cfg(test)]
mod alone_tests;
#[cfg(test)]
mod changing;
#[cfg(test)]
mod database;
#[cfg(test)]
mod edge_tests;
#[cfg(test)]
mod files;
#[cfg(test)]
mod first;
#[cfg(test)]
mod first_file;
#[cfg(test)]
mod going_on;
#[cfg(test)]
mod host_tests;
#[cfg(test)]
mod lines;
#[cfg(test)]
mod many;
#[cfg(test)]
mod migrating;
#[cfg(test)]
mod other_tests;
#[cfg(test)]
mod pool_alone_tests;
#[cfg(test)]
mod pool_changing;
#[cfg(test)]
mod pool_edge_tests;
#[cfg(test)]
mod pool_file;
#[cfg(test)]
mod pool_lines;
#[cfg(test)]
mod pool_tests;
#[cfg(test)]
mod register_file;
#[cfg(test)]
mod schema_tests;
#[cfg(test)]
mod stop_tests;
#[cfg(test)]
mod stops;
#[cfg(test)]
mod store_kinds;
#[cfg(test)]
mod stored;
#[cfg(test)]
mod tests;
#[cfg(test)]
mod told;
#[cfg(test)]
mod words;
