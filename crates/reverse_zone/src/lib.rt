//! PTR records of reverse zones (RFC 1035 3.5, RFC 3596 2.5): names of addresses as lines of a zone file, and such lines read back.
#![tactic(auto)]

mod input;
pub mod laws;
mod line;
mod name;
mod owner;
mod record;
#[cfg(test)]
mod tests;
mod words;

pub use input::{PtrFault, read_ptrs};
pub use line::{ptr_line, write_ptr};
pub use name::{fits, ptr_name};
pub use owner::{LINE_ROOM, Line};
pub use record::Pair;
