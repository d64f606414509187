//! HTTP/1.x over a connection that gives and takes bytes (RFC 9112): the requests that are in the
//! bytes, the answers as bytes, and the loop that serves one connection to its end. It knows
//! nothing of what is asked.
#![tactic(auto)]

mod answer;
mod answer_writer;
mod fields;
mod head;
mod laws;
mod reply;
mod request;
mod session;
mod wait;

pub use answer::{PutEnd, put_answer, put_parts};
pub use laws::{cut_anywhere, more_bytes, one_list, one_reading};
pub use reply::{Body, NumberField, Reply};
pub use request::{Asked, Fault, HttpRequest, Inbox, next_request};
pub use session::{Desk, SessionEnd, serve, serve_line};
