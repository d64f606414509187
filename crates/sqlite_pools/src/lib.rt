//! Keepers of stored pools in SQLite files, and their opener.
#![tactic(auto)]

mod connects;
mod keeper;
mod loading;
mod making;
mod opener;
mod storing;
mod tables;

pub use connects::{ConnectsPools, CountedPools};
pub use keeper::SqlitePools;
pub use opener::{SqlitePoolOpener, StorePools};
