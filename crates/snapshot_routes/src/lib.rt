//! What a request asks of a snapshot of VRFs and prefixes, by its path, its method and its query, and how it is answered over HTTP.
#![tactic(auto)]

mod answer;
mod question;

pub use answer::{behind_answer, unread_answer};
pub use question::{Question, Unread, read_question};
