//! The JSON of the service: what the body of a request asks for, and the text of a reply.
#![tactic(auto)]

mod addr_item;
mod address;
mod aggregate;
mod available;
mod block_item;
mod bodies;
mod choices;
mod claims;
mod fixed;
mod laws;
mod members;
mod nets;
mod numbers;
mod prefix;
mod range;
mod replies;
mod rir;
mod role;
mod rows;
mod vrf;
mod writing;

pub use addr_item::read_addr_claim;
pub use block_item::read_block_claim;
pub use bodies::{read_body, read_edit};
pub use fixed::fixed_refusal_bytes;
pub use laws::{body_is_one, bounds_are_those, claim_is_one, edit_is_one, rows_are_in_order};
pub use replies::{Links, RECORD_ROOM, refusal_bytes, reply_bytes, write_reply};
pub use writing::put_link;
