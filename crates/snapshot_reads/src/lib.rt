//! Readers that never wait: the VRFs and prefixes of a register in two copies. Readers take the one that is shown, while one writer
//! changes the other and then swaps the two. Each change joins one history, and each reader knows the beginning of it that it saw.
#![tactic(auto)]

mod copies;
mod feed;
mod history;
mod look;
mod rule;

pub use copies::{Entry, Known, Twin};
pub use feed::Feed;
pub use history::HistoryRule;
pub use look::{Look, Looked};
pub use rule::Follow;
