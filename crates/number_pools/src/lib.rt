//! Number pools: ranges of numbers of autonomous systems and groups of VLANs, and what is given out of them. What lawful pools are, what
//! each call leads to, and the least free numbers of a range.
#![tactic(auto)]

mod calls;
mod claim;
pub mod laws;
mod rows;

pub use calls::{
    Chosen, Listed, MOST_CLAIMED, MOST_MEMBERS, MOST_RANGES, MemberQuery, PoolCall, PoolRefusal,
    PoolReply, Quantity,
};
pub use claim::{Short, free_in, free_numbers, plan_claim, pool_of};
pub use rows::{LAST_ASN, LAST_VLAN, MOST_HELD, Member, NumberRange, PoolKind};
