//! A range as blocks.

ghost use Rattle.std.specs.Prelude.{◌≤◌, IfOk, length};
ghost use Rattle.ipam_data.specs.Lawful.{IsRange};
ghost use Rattle.ip_ranges.specs.Pieces.{ArePieces};

use inet_num::{Block, Span};
use ipam_data::range::IpRange;
use span_set::SpanSet;
use std::alloc::{AllocError, Global};

/// The range as the fewest blocks, in address order. `Err` means out of memory.
pub fn pieces_of(alloc: Global, row: &IpRange) -> Result<Vec<Block>, AllocError>
    requires { IsRange row.now }
    ensures { IfOk result (λ v. ArePieces row.now v.items) }
{
    let mut set = SpanSet::new(alloc, row.ends.start().family());
    set.add(Span {
        first: row.ends.start(),
        last: row.ends.end(),
    })?;
    set.blocks()
}
