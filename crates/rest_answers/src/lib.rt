//! The answer to a call, once the register has replied, and a reply written as an answer.
#![tactic(auto)]

mod answer;
mod put;
#[cfg(test)]
mod tests;

pub use answer::{answer_at, answer_to, is_want, place_field};
pub use put::{PutReply, put_reply};
