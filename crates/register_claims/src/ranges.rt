//! What is asked of the book of ranges.

ghost use Rattle.std.specs.Prelude.{◌≡◌, Some, IfOk};
ghost use Rattle.std.specs.List.{AllByRecursion, flat_map};
ghost use Rattle.inet_num.specs.Count.{addresses_of};
ghost use Rattle.ipam_data.specs.Lawful.{IsLawful};
ghost use Rattle.ipam_data.specs.RowList.{row_at};
ghost use Rattle.ipam_data.specs.Rows.{range_id};
ghost use Rattle.register_tables.specs.Held.{state_of};
ghost use Rattle.ipam_data.specs.Claims.{numbers_in};
ghost use Rattle.ip_ranges.specs.Spans.{AreSpansOf};
ghost use Rattle.register_claims.specs.Hosts.{given_numbers};

use inet_num::{Block, Family, Span};
use ip_ranges::SpanKind;
use ipam_data::kinds::Table;
use ipam_data::range::IpRange;
use register_tables::RowTables;
use std::alloc::AllocError;

/// The spans of the ranges of a table and family, in order.
pub fn spans_of(row_tables: &RowTables, table: Table, family: Family, which: SpanKind) -> &[Span]
    requires { IsLawful (state_of row_tables.now) }
    ensures { AreSpansOf row_tables.now.ranges.rows table family which result.now }
{
    row_tables.ranges().spans(table, family, which)
}

/// The range of an id, which is this one, as blocks, whose addresses follow one another. `Err` means out of memory.
fn pieces_of(row_tables: &RowTables, id: u32, _range: &IpRange) -> Result<Vec<Block>, AllocError>
    requires lawful { IsLawful (state_of row_tables.now) }
    requires there { row_at range_id row_tables.now.ranges.rows id ≡ Some _range.now }
    ensures numbers { IfOk result (λ v. flat_map addresses_of v.items ≡ numbers_in _range.now) }
    ensures family { IfOk result (λ v. AllByRecursion (λ b. b.family ≡ _range.now.ends.start.family) v.items) }
{
    row_tables.ranges().pieces(id)
}

/// The blocks of the range of an id, which is this one, whose addresses may be given out: none if somebody else fills it. `Err`
/// means out of memory.
pub fn given_pieces(
    row_tables: &RowTables,
    id: u32,
    range: &IpRange,
) -> Result<Vec<Block>, AllocError>
    requires lawful { IsLawful (state_of row_tables.now) }
    requires there { row_at range_id row_tables.now.ranges.rows id ≡ Some range.now }
    ensures numbers { IfOk result (λ v. flat_map addresses_of v.items ≡ given_numbers range.now) }
    ensures family { IfOk result (λ v. AllByRecursion (λ b. b.family ≡ range.now.ends.start.family) v.items) }
{
    if range.mark_populated {
        return Ok(Vec::new(row_tables.allocator()));
    }
    pieces_of(row_tables, id, range)
}
