//! The report of number pools.
#![tactic(auto)]

mod free;
mod report;

pub use report::report_text;
