//! The register over HTTP: its service, which says what a request asks for and how a reply is answered; one connection over a register
//! that many share, or its two halves: the next request, and an answer of its parts or of a reply; and many connections at once, each worker in a thread.
#![tactic(auto)]

mod answer;
mod bytes;
mod laws;
mod request;
mod service;
mod session;
mod workers;

pub use answer::put_answer;
pub use bytes::Bytes;
pub use http_session::{Inbox, PutEnd, SessionEnd};
pub use laws::{answers_are_one, state_is_replay};
pub use register_core::Settings;
pub use request::{Asked, HttpRequest, next_request};
pub use rest_answers::{PutReply, put_reply};
pub use rest_routes::{Route, read_call};
pub use service::{Page, RegisterService};
pub use session::serve_session;
pub use workers::{Worker, serve_workers};
