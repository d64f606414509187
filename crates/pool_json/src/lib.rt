//! The JSON of number pools: what the body of a request asks for, and the text of a reply.
#![tactic(auto)]

mod bodies;
mod claims;
mod details;
mod edits;
mod laws;
mod members;
mod pages;
mod records;
mod replies;
mod rows;

pub use bodies::{RangeDraft, RequestRefusal, read_range};
pub use claims::read_claim;
pub use details::{code, detail, quantity_name};
pub use edits::{RangeEdit, read_member_edit, read_range_edit};
pub use laws::{claim_is_one, edit_is_one, range_body_is_one, record_is_one, rows_are_in_order};
pub use pages::{members_name, range_name};
pub use records::{number_name, read_record};
pub use replies::{Shape, reply_bytes, request_refusal_bytes};
