//! A tally as a web service: `GET` asks for the sum, and `POST` with a body of one byte adds it. On it the sessions, the workers and the
//! server of any machine are tried.
#![tactic(auto)]

mod board;
mod crew;
#[cfg(test)]
mod numbered;
mod service;
#[cfg(test)]
mod tests;

pub use board::Board;
pub use crew::{serve_all, serve_workers};
pub use service::TallyService;
