//! Which rows are where another is: in its table, with its block.

ghost use Rattle.std.specs.Prelude.{◌≡◌, ◌++◌, IfOk, OnOk, drop, map};
ghost use Rattle.ipam_data.specs.RowList.{least};
ghost use Rattle.placed_book.specs.Book.{AreInOrder};
ghost use Rattle.placed_book.specs.Firsts.{HasFirsts, is_at, ids_at, one_if};
ghost use Rattle.placed_book.specs.Rivals.{is_rival, stays_among};

use crate::Located;
use crate::contract::{Book, in_order};
use crate::firsts::{Firsts, spot_at};
use crate::indexed::IndexedBook;
use crate::tables::Tables;
use block_space::Space;
use inet_num::{Block, is_one_block};
use ipam_data::kinds::{Table, is_one_table};
use std::alloc::{AllocError, Global};

/// Whether the row is in the table and has the block.
fn is_here<T: Located>(row: &T, table: Table, block: &Block) -> bool
    ensures { result ≡ is_at table block.now (T.placed row.now) }
{
    is_one_table(Table::of(row.vrf()), table) && is_one_block(&row.block(), block)
}

/// Whether the other row is of the row's table with its block, and has another id.
fn is_another<T: Located>(row: &T, other: &T) -> bool
    ensures { result ≡ is_rival T.id_of T.placed row.now other.now }
{
    other.id() != row.id() && is_here(other, Table::of(row.vrf()), &row.block())
}

/// Appends the id, if it is one of those that are looked for.
fn push_if(ids: &mut Vec<u32>, is_one: bool, id: u32) -> Result<(), AllocError>
    ensures { OnOk result (ids.new.items ≡ ids.old.items ++ one_if is_one id) }
{
    if is_one {
        ids.push(id)?;
    }
    Ok(())
}

/// The ids of the rows of a table with a block, looked for row by row.
pub fn ids_among<T: Located + Drop>(
    alloc: Global,
    rows: &IndexedBook<T>,
    table: Table,
    block: &Block,
) -> Result<Vec<u32>, AllocError>
    ensures { IfOk result (λ v. v.items ≡ ids_at (map T.placed rows.now.rows) table block.now) }
{
    let mut ids = Vec::new(alloc);
    let count = rows.len();
    'rows: for index in 0..count {
        if let Some(row) = rows.at(index) {
            push_if(&mut ids, is_here(row, table, block), row.id())?;
        }
    }
    Ok(ids)
}

/// Whether the row that is kept under the row's id, if any, is where the row is.
pub fn is_in_place<T: Located + Drop>(rows: &IndexedBook<T>, row: &T) -> bool
    ensures { result ≡ stays_among T.id_of T.placed rows.now.rows row.now }
{
    match rows.get(row.id()) {
        Some(kept) => is_here(kept, Table::of(row.vrf()), &row.block()),
        None => false,
    }
}

/// The id of the first rival from an index on. It looks at the rows only if the table's space says that there may be one: it has
/// the block more often than the row meets itself.
pub fn least_rival<T: Located + Drop, S: Space + Drop>(
    rows: &IndexedBook<T>,
    tables: &Tables<S>,
    from: u32,
    row: &T,
) -> Option<u32>
    requires { AreInOrder (map T.placed rows.now.rows) tables.now }
    ensures { result ≡ least T.id_of (is_rival T.id_of T.placed row.now) (drop from rows.now.rows) }
{
    in_order(rows);
    if tables.times(Table::of(row.vrf()), row.block()) <= is_in_place(rows, row) as u32 {
        return None;
    }
    let count = rows.len();
    'rows: for index in from..count {
        if let Some(other) = rows.at(index) {
            if is_another(row, other) {
                return Some(other.id());
            }
        }
    }
    None
}

/// The least id of a rival: the first one at the row's place, or, if that is the row's own, what a look at the rows finds.
pub fn first_rival<T: Located + Drop, S: Space + Drop>(
    rows: &IndexedBook<T>,
    tables: &Tables<S>,
    firsts: &Firsts,
    row: &T,
) -> Option<u32>
    requires order { AreInOrder (map T.placed rows.now.rows) tables.now }
    requires firsts { HasFirsts (map T.placed rows.now.rows) firsts.now }
    ensures { result ≡ least T.id_of (is_rival T.id_of T.placed row.now) rows.now.rows }
{
    if let Some(first) = firsts.get(&spot_at(Table::of(row.vrf()), &row.block())) {
        if *first != row.id() {
            return Some(*first);
        }
    }
    least_rival(rows, tables, 0, row)
}
