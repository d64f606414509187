//! What each call on records leads to, an import and an export too, before anything is done: its refusal, its answer, or an update
//! with its answer. The five calls are planned once over what a kind gives (`Registered`); a kind has a file, and a line in each
//! dispatch. No row is changed when a plan is handed out: an import makes its rows and cuts them again. Get and List need little of
//! a kind (`Listed`), and of its rows that they can be looked at (`RowsOf`): a book of VRFs or of prefixes alone answers them too.
#![tactic(auto)]

mod addresses;
mod aggregate;
mod answers;
mod calls;
mod candidates;
mod dispatch;
mod exports;
mod filters;
mod imports;
mod listed;
mod prefixes;
mod ranges;
mod registered;
mod rirs;
mod roles;
mod same;
mod vrfs;

pub use answers::{prefix_answer, vrf_answer};
pub use dispatch::{broken_by_view, plan_draft, plan_edit, plan_gone, plan_one, plan_page};
pub use exports::plan_rows;
pub use imports::laws::keys_are_exact;
pub use imports::plan_import;
