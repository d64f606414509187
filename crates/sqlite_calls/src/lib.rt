//! What keepers over SQLite files share: single statements, transactions, the table of numbers, and how faults are counted.
#![tactic(auto)]

mod calls;
mod fault;
mod numbers;

pub use calls::{begin, end, has_tables, prepare_text, run, run_with};
pub use fault::{StoreFault, refused};
pub use numbers::{Number, make_numbers, number_under, prepare_number, read_numbers, set_number};
