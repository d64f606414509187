//! What a report says of the prefixes of a register, and in specs/ the lines of all of them in their order.

ghost use Rattle.std.specs.Prelude.{◌≡◌};

use crate::kinds::Table;
use crate::prefix::PrefixStatus;
use inet_num::Block;
use std::marker::Model;

/// A line of a report: a prefix of a table with its depth, that is how many blocks of its table contain it, and its utilisation in
/// whole percent.
#[derive(Clone, Copy, Debug)]
pub struct PrefixLine {
    pub table: Table,
    pub depth: u32,
    pub block: Block,
    pub status: PrefixStatus,
    pub percent: u8,
}

/// The lines of a report, in order. A contract sees the list.
#[derive(Debug, Drop)]
pub struct PrefixLines {
    items: Vec<PrefixLine>,
}

impl Model for PrefixLines {
    ghost use Rattle.std.specs.Prelude.{List};
    ghost use Rattle.ipam_data.specs.declared.survey.PrefixLine.{PrefixLine};

    ghost Value = { List PrefixLine };

    ghost view = { λ v. v.items.items };
}

impl PrefixLines {
    /// The list of these. It takes no memory.
    pub fn of(items: Vec<PrefixLine>) -> PrefixLines
        ensures { result ≡ items.items }
    {
        PrefixLines { items }
    }

    /// The list as a slice, to be read.
    pub fn as_slice(&self) -> &[PrefixLine]
        ensures { result.now ≡ self.now }
    {
        self.items.as_slice()
    }

    /// The vector again. It takes no memory.
    pub fn into_vec(self) -> Vec<PrefixLine>
        ensures { result.items ≡ self }
    {
        self.items
    }
}
