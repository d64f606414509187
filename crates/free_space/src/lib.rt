//! What of a block can still be given out, read from a space of blocks: its first available blocks, its first usable addresses,
//! and the first addresses of a range that no host has. Nothing here changes a space.
#![tactic(auto)]

mod addresses;
mod blocks;
mod bounds;
mod searches;
mod untaken;

pub use addresses::{available_addrs, range_addrs};
pub use blocks::available_blocks;
pub use bounds::usable_bounds;
pub use untaken::push_untaken;
