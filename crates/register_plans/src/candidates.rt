//! Which rows are looked at for a filter that names a VRF or a block.

ghost use Rattle.std.specs.Prelude.{◌≡◌, ◌∷◌, ℕ, true, List, Option, Some, Contains, IfOk, IfSome, IsSome, map};
ghost use Rattle.std.specs.List.Sorted.{IsStrictlyIncreasing};
ghost use Rattle.inet_num.specs.Net.{Cidr};
ghost use Rattle.inet_num.specs.Blocks.{same_block, is_block_inside, is_strictly_inside};
ghost use Rattle.ipam_data.specs.declared.kinds.Table.TheVariants.{Global, Of};
ghost use Rattle.ipam_data.specs.Checks.{asks};
ghost use Rattle.ipam_data.specs.Rows.{vrf_id};
ghost use Rattle.ipam_data.specs.RowList.{row_at};
ghost use Rattle.placed_book.specs.Book.{IsInOrder};
ghost use Rattle.place_search.specs.Areas.{in_area};
ghost use Rattle.register_plans.specs.Candidates.{tables_asked, is_asked, AreCandidates};

use inet_num::Block;
use ipam_data::kinds::Table;
use place_search::{Area, ids_in};
use placed_book::{Located, PlacedBook};
use radix_tree::Tree;
use register_tables::RowTables;
use std::alloc::AllocError;

/// The global table and those of the VRFs. `Err` means out of memory.
fn all_tables(row_tables: &RowTables) -> Result<Vec<Table>, AllocError>
    ensures { IfOk result (λ v. v.items ≡ Global ∷ map (λ vrf. Of vrf.id) row_tables.now.vrfs.rows) }
{
    let mut tables = Vec::new(row_tables.allocator());
    tables.push(Table::Global)?;
    'vrfs: for vrf in row_tables.vrfs().rows() {
        tables.push(Table::Of(vrf.id))?;
    }
    Ok(tables)
}

/// The table that a filter names, or else all. `Err` means out of memory.
fn tables_asked(row_tables: &RowTables, vrf: &Option<Option<u32>>) -> Result<Vec<Table>, AllocError>
    ensures { IfOk result (λ v. v.items ≡ tables_asked vrf.now row_tables.now.vrfs.rows) }
{
    let Some(named) = vrf else {
        return all_tables(row_tables);
    };
    let mut tables = Vec::new(row_tables.allocator());
    tables.push(Table::of(*named))?;
    Ok(tables)
}

/// Where the blocks are that pass each test that a filter of prefixes asks for.
pub fn area_asked(
    prefix: &Option<Block>,
    within: &Option<Block>,
    within_include: &Option<Block>,
    contains: &Option<Block>,
) -> Area
    ensures { (b : Cidr) → asks prefix.now (λ w. same_block b w) ≡ true → asks within.now (λ w. is_strictly_inside b w) ≡ true → asks within_include.now (λ w. is_block_inside b w) ≡ true → asks contains.now (λ w. is_block_inside w b) ≡ true → in_area result b ≡ true }
{
    if let Some(block) = prefix {
        return Area::At(*block);
    }
    if let Some(block) = within {
        return Area::Inside(*block);
    }
    if let Some(block) = within_include {
        return Area::Inside(*block);
    }
    if let Some(block) = contains {
        return Area::Around(*block);
    }
    Area::Anywhere
}

/// Where the hosts are that lie in the block that a filter of addresses asks for.
pub fn area_of(parent: &Option<Block>) -> Area
    ensures { (b : Cidr) → asks parent.now (λ w. is_block_inside b w) ≡ true → in_area result b ≡ true }
{
    match parent {
        Some(block) => Area::Inside(*block),
        None => Area::Anywhere,
    }
}

/// The ids of the rows of the VRF that a filter names, if any, whose block is in the area, rising; `None` if there are many, or
/// no VRF is named and any block will do. The VRFs that the rows name exist. `Err` means out of memory.
pub fn ids_asked<T: Located + Drop>(
    row_tables: &RowTables,
    book: &PlacedBook<T, Tree>,
    vrf: &Option<Option<u32>>,
    area: &Area,
) -> Result<Option<Vec<u32>>, AllocError>
    requires order { IsInOrder T.placed book.now }
    requires there { (row : T) (n : ℕ) → Contains book.now.rows row → (T.placed row).vrf ≡ Some n → IsSome (row_at vrf_id row_tables.now.vrfs.rows n) }
    ensures { IfOk result (λ found. IfSome found (λ v. AreCandidates T.id_of (λ row. is_asked vrf.now area.now (T.placed row)) book.now.rows v.items)) }
{
    if let (None, Area::Anywhere) = (vrf, area) {
        return Ok(None);
    }
    let tables = tables_asked(row_tables, vrf)?;
    ids_in(row_tables.allocator(), book, tables.as_slice(), area)
}
