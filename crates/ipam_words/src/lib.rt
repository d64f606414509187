//! The printed words of the service: names of kinds, members, limits, statuses and roles, and the code, the detail and the status
//! of each refusal. Each text is here once, for bodies, queries, files and commands.
#![tactic(auto)]

mod choices;
mod codes;
mod details;
mod lines;
mod names;

pub use choices::{
    address_role_label, address_role_named, address_role_value, address_status_label,
    address_status_named, address_status_value, prefix_status_label, prefix_status_named,
    prefix_status_value, range_status_label, range_status_named, range_status_value,
};
pub use codes::{code, fault_code, rule_code, status};
pub use details::{detail, fault_detail, fixed_detail, rule_detail};
pub use lines::{
    breach_words, excess_words, next_id_words, refusal_line, unreadable_words, version_words,
};
pub use names::{field_name, kind_name, which_name};
