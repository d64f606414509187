//! How the ids of rows are gathered: table by table, and in a table block by block.

ghost use Rattle.std.specs.Prelude.{◌≡◌, ◌++◌, ℕ, ◌≤◌, length, Contains, IfOk, IfSome, OnOk, map};
ghost use Rattle.std.specs.List.{flat_map};
ghost use Rattle.inet_num.specs.Net.{Cidr};
ghost use Rattle.radix_tree.specs.declared.Entry.{Entry as SeenEntry};
ghost use Rattle.placed_book.specs.Book.{IsInOrder, is_of};
ghost use Rattle.placed_book.specs.Firsts.{ids_at};
ghost use Rattle.place_search.specs.declared.TheConstants.{MOST_CANDIDATES as MOST_IDS};
ghost use Rattle.place_search.specs.declared.Area.TheVariants.{At as AtBlock, Inside as InsideBlock, Around as AroundBlock, Anywhere as OfAny};
ghost use Rattle.place_search.specs.Areas.{is_in_table, is_looked_for};
ghost use Rattle.place_search.specs.Ids.{HasMore, IsRising};

use crate::stop::Stop;
use crate::{Area, MOST_CANDIDATES};
use block_space::{Space, lawful};
use inet_num::{Addr, Block, Family};
use ipam_data::kinds::Table;
use placed_book::{Located, PlacedBook};
use radix_tree::{Inside, Tree};
use std::alloc::{AllocError, Global};

/// The block of all addresses of a family.
fn whole(family: Family) -> Block
    ensures { result ≡ record { family = family; first = 0; len = 0 } }
{
    match Addr::of(family, 0) {
        Some(addr) => match Block::of(addr, 0) {
            Some(block) => block,
            None => unreachable!(),
        },
        None => unreachable!(),
    }
}

/// Whether more rows lie in the area than ids are looked up, those of all tables together. It is asked only if there are several
/// tables: of one its own space is asked.
pub fn is_crowded<T: Located + Drop>(
    book: &PlacedBook<T, Tree>,
    tables: &[Table],
    area: &Area,
) -> bool
    requires { IsInOrder T.placed book.now }
{
    if tables.len() < 2 {
        return false;
    }
    match area {
        Area::Inside(within) => {
            book.all(within.family()).counting(*within, false) > MOST_CANDIDATES
        }
        _ => false,
    }
}

/// Appends the ids of the rows of a table with a block.
fn push_at<T: Located + Drop>(
    ids: &mut Vec<u32>,
    alloc: Global,
    book: &PlacedBook<T, Tree>,
    table: Table,
    block: Block,
) -> Result<(), Stop>
    requires { IsInOrder T.placed book.now }
    ensures { OnOk result (ids.new.items ≡ ids.old.items ++ ids_at (map T.placed book.now.rows) table block) }
{
    let mut found = book.ids_at(alloc, table, block)?;
    ids.append(&mut found)?;
    Ok(())
}

/// Appends the ids of the rows of a table with one of the blocks of a walk, each of which is to occur in the table once.
fn push_entries<T: Located + Drop>(
    ids: &mut Vec<u32>,
    alloc: Global,
    book: &PlacedBook<T, Tree>,
    table: Table,
    entries: Inside<'_>,
) -> Result<(), Stop>
    requires { IsInOrder T.placed book.now }
    ensures { OnOk result (ids.new.items ≡ ids.old.items ++ flat_map (λ (entry : SeenEntry). ids_at (map T.placed book.now.rows) table entry.block) entries.entry) }
{
    let mut rest = entries;
    'walk: while let Some(entry) = rest.next() {
        if entry.times > 1 {
            return Err(Stop::Many);
        }
        push_at(ids, alloc, book, table, entry.block)?;
    }
    Ok(())
}

/// The same with some blocks of the family of a space.
fn push_blocks<T: Located + Drop>(
    ids: &mut Vec<u32>,
    alloc: Global,
    book: &PlacedBook<T, Tree>,
    table: Table,
    space: &Tree,
    blocks: &[Block],
) -> Result<(), Stop>
    requires order { IsInOrder T.placed book.now }
    requires family { (block : Cidr) → Contains blocks.now block → block.family ≡ space.now.family }
    ensures { OnOk result (ids.new.items ≡ ids.old.items ++ flat_map (λ (block : Cidr). ids_at (map T.placed book.now.rows) table block) blocks.now) }
{
    'walk: for block in blocks {
        if space.times(*block) > 1 {
            return Err(Stop::Many);
        }
        push_at(ids, alloc, book, table, *block)?;
    }
    Ok(())
}

/// Appends the ids of the rows of a table whose block is this one.
fn push_one<T: Located + Drop>(
    ids: &mut Vec<u32>,
    alloc: Global,
    book: &PlacedBook<T, Tree>,
    table: Table,
    block: Block,
) -> Result<(), Stop>
    requires { IsInOrder T.placed book.now }
    ensures { OnOk result (HasMore (is_in_table table (AtBlock block)) (map T.placed book.now.rows) ids.old.items ids.new.items) }
{
    if let Some(space) = book.space(table, block.family()) {
        if space.times(block) > 1 {
            return Err(Stop::Many);
        }
    }
    push_at(ids, alloc, book, table, block)
}

/// Appends the ids of the rows of a table whose block lies in this one.
fn push_inside<T: Located + Drop>(
    ids: &mut Vec<u32>,
    alloc: Global,
    book: &PlacedBook<T, Tree>,
    table: Table,
    within: Block,
) -> Result<(), Stop>
    requires { IsInOrder T.placed book.now }
    ensures { OnOk result (HasMore (is_in_table table (InsideBlock within)) (map T.placed book.now.rows) ids.old.items ids.new.items) }
{
    let Some(space) = book.space(table, within.family()) else {
        return Ok(());
    };
    if space.counting(within, false) > MOST_CANDIDATES {
        return Err(Stop::Many);
    }
    push_entries(ids, alloc, book, table, space.inside(within))
}

/// Appends the ids of the rows of a table whose block contains this one.
fn push_around<T: Located + Drop>(
    ids: &mut Vec<u32>,
    alloc: Global,
    book: &PlacedBook<T, Tree>,
    table: Table,
    block: Block,
) -> Result<(), Stop>
    requires { IsInOrder T.placed book.now }
    ensures { OnOk result (HasMore (is_in_table table (AroundBlock block)) (map T.placed book.now.rows) ids.old.items ids.new.items) }
{
    let Some(space) = book.space(table, block.family()) else {
        return Ok(());
    };
    let blocks = space.covering(block)?;
    push_blocks(ids, alloc, book, table, space, blocks.as_slice())
}

/// Appends the ids of the rows of a table whose block is of a family.
fn push_family<T: Located + Drop>(
    ids: &mut Vec<u32>,
    alloc: Global,
    book: &PlacedBook<T, Tree>,
    table: Table,
    family: Family,
) -> Result<(), Stop>
    requires { IsInOrder T.placed book.now }
    ensures { OnOk result (HasMore (is_of table family) (map T.placed book.now.rows) ids.old.items ids.new.items) }
{
    let Some(space) = book.space(table, family) else {
        return Ok(());
    };
    lawful(space);
    let within = whole(family);
    if space.counting(within, false) > MOST_CANDIDATES {
        return Err(Stop::Many);
    }
    push_entries(ids, alloc, book, table, space.inside(within))
}

/// Appends the ids of all rows of a table.
fn push_all<T: Located + Drop>(
    ids: &mut Vec<u32>,
    alloc: Global,
    book: &PlacedBook<T, Tree>,
    table: Table,
) -> Result<(), Stop>
    requires { IsInOrder T.placed book.now }
    ensures { OnOk result (HasMore (is_in_table table OfAny) (map T.placed book.now.rows) ids.old.items ids.new.items) }
{
    push_family(ids, alloc, book, table, Family::V4)?;
    push_family(ids, alloc, book, table, Family::V6)
}

/// Appends the ids of the rows of a table whose block is in the area.
fn push_table<T: Located + Drop>(
    ids: &mut Vec<u32>,
    alloc: Global,
    book: &PlacedBook<T, Tree>,
    table: Table,
    area: &Area,
) -> Result<(), Stop>
    requires { IsInOrder T.placed book.now }
    ensures { OnOk result (HasMore (is_in_table table area.now) (map T.placed book.now.rows) ids.old.items ids.new.items) }
{
    match area {
        Area::At(block) => push_one(ids, alloc, book, table, *block),
        Area::Inside(within) => push_inside(ids, alloc, book, table, *within),
        Area::Around(block) => push_around(ids, alloc, book, table, *block),
        Area::Anywhere => push_all(ids, alloc, book, table),
    }
}

/// Appends the ids of the rows of the tables whose block is in the area.
pub fn push_tables<T: Located + Drop>(
    ids: &mut Vec<u32>,
    alloc: Global,
    book: &PlacedBook<T, Tree>,
    tables: &[Table],
    area: &Area,
) -> Result<(), Stop>
    requires order { IsInOrder T.placed book.now }
    requires few { length ids.old.items ≤ MOST_IDS }
    ensures few { OnOk result (length ids.new.items ≤ MOST_IDS) }
    ensures more { OnOk result (HasMore (is_looked_for tables.now area.now) (map T.placed book.now.rows) ids.old.items ids.new.items) }
{
    'tables: for table in tables {
        push_table(ids, alloc, book, *table, area)?;
        if ids.len() > MOST_CANDIDATES as usize {
            return Err(Stop::Many);
        }
    }
    Ok(())
}

/// The same ids rising, each once.
pub fn rising(ids: Vec<u32>) -> Result<Vec<u32>, AllocError>
    ensures few { IfOk result (λ v. length v.items ≤ length ids.items) }
    ensures rises { IfOk result (λ v. IsRising ids.items v.items) }
{
    let mut sorted = ids;
    sorted.sort()?;
    sorted.dedup();
    Ok(sorted)
}
