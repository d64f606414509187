//! What a request asks of number pools, by its target, its method and its body, and how replies are answered over HTTP.
#![tactic(auto)]

mod answer;
mod call;
mod laws;
mod listing;
mod route;
mod table;

pub use answer::{answer_of_fault, answer_of_refusal_by, answer_of_reply};
pub use call::{read_call_by, shape_of};
pub use laws::request_is_one;
pub use route::{Base, Method, RangePart, Route};
pub use table::Routes;
