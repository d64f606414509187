//! What a request asks of the register, by its target, its method and its body, and how replies are answered over HTTP.
#![tactic(auto)]

mod answer;
mod call;
mod laws;
mod parts;
mod route;
mod table;

pub use answer::{
    answer_of_fault, answer_of_refusal, answer_of_refusal_by, answer_of_reply, answer_of_want,
    finish_links, page_end, refusal_of,
};
pub use call::{read_call, read_call_by};
pub use laws::request_is_one;
pub use route::{Method, Route, RowPart};
pub use table::Routes;
