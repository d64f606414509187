//! Number pools as a web service, and sessions over pools that many connections share.
#![tactic(auto)]

mod service;
mod session;

pub use service::PoolService;
pub use session::serve_pools;
