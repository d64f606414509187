//! What is found if stored tables are opened.

use ipam_data::kinds::Kind;
use ipam_data::replies::{Rule, Which};

/// A row of a kind and id that breaks a rule given the rows before it.
#[derive(Clone, Copy, Debug)]
pub struct Breach {
    pub kind: Kind,
    pub id: u32,
    pub rule: Rule,
}

/// Why stored tables are not opened.
#[derive(Clone, Copy, Debug)]
pub enum OpenFault {
    /// The keeper failed.
    Keeper,
    /// The row of this kind and id breaks a rule given the rows before it.
    BadTables(Kind, u32, Rule),
    /// Out of memory.
    Memory,
    /// The row of this kind and id can't be read.
    BadRow(Kind, u32),
    /// The tables have this version, which is not that of the register's tables.
    Version(u32),
    /// The next id of this kind is absent, is 0, or is not above all ids of the kind.
    BadNext(Kind),
    /// A kind has more rows than this limit.
    Limit(Which, u64),
}
