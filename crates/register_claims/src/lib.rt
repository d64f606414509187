//! What claims, lists of what is free, figures and surveys give, before anything is done: the spaces of the books are asked, and
//! no row is looked at but the one that is named; a survey looks at each prefix. Nothing here changes a row.
#![tactic(auto)]

mod blocks;
mod checks;
mod children;
mod figures;
mod host_claims;
mod host_spaces;
mod hosts;
mod items;
mod ranges;
mod surveys;

pub use blocks::{available_in, plan_available_blocks, plan_claim_blocks};
pub use figures::plan_utilization;
pub use host_claims::{plan_claim_prefix_addrs, plan_claim_range_addrs};
pub use hosts::{plan_prefix_addrs, plan_range_addrs};
pub use surveys::plan_survey;
