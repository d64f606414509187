//! One connection of a reader, which is answered from a look at the published VRFs and prefixes.
#![tactic(auto)]

mod handler;
mod laws;
mod session;

pub use handler::ReaderHandler;
pub use laws::numbers_never_fall;
pub use session::serve_reader;
