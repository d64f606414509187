//! How serving a machine ends.

use http_lanes::Listening;

/// What is said of a machine that was served.
#[derive(Clone, Copy, Debug)]
pub struct Served {
    /// How many changes were accepted.
    pub entries: u64,
    pub listening: Listening,
}

/// Why a machine was not served.
pub enum Unserved<F> {
    /// It was not opened.
    Opening(F),
    /// Out of memory.
    Memory,
    /// The listener could not be bound to its place.
    Place,
}
