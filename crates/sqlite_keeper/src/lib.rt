//! Keepers of stored tables in SQLite files, and their opener.
#![tactic(auto)]

mod connects;
mod keeper;
mod loading;
mod making;
mod opener;
mod order;
mod storing;
mod tables;
mod upgrading;

pub use connects::{Connects, CountedKeeper};
pub use keeper::SqliteKeeper;
pub use opener::{SqliteOpener, StoreKeeper};
