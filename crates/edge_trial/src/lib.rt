//! The outside tried: objects in memory, streams, and lanes in memory and over a socket.
#![tactic(auto)]

#[cfg(test)]
mod ipam_edge_tests;
#[cfg(test)]
mod ipam_listen_tests;
#[cfg(test)]
mod tcp_tests;
