//! Rows that have a place: each is in a table and has a block there. The rows are in the order of their ids. For each table the
//! blocks of its rows are in a space of each family, and the blocks of all rows in a space of each family too, so that what is
//! asked of a table, or of all, looks at few rows.
//!
//! A book is **in order** if each table that a row names exists, the spaces of each table have just the blocks of its rows,
//! and those of all tables the blocks of all rows, in any order. Each call that changes a book, or answers by the spaces, needs a
//! book in order, and leaves it so; only the two swaps do neither. Only `reserve` and `reserve_table` take memory.
#![tactic(auto)]

ghost use Rattle.std.specs.Prelude.{◌≡◌, ◌↔◌, ℕ, ◌+◌, ◌^◌, ◌<◌, ◌≤◌, true, false, None, IfSome, IsSome, IfOk, OnOk, OnErr, MatchBool, IsPermutation, length, map, option_copied, slice_get};
ghost use Rattle.std.specs.List.{count_by};
ghost use Rattle.inet_num.specs.declared.Family.{Family};
ghost use Rattle.ipam_data.specs.declared.kinds.Table.{Table};
ghost use Rattle.ipam_data.specs.RowList.{row_at, row_after, with_row, without, least, least_pair, Rises};
ghost use Rattle.ipam_data.specs.Tables.{table_of, same_table};
ghost use Rattle.placed_book.specs.RowBook.{IsFitting};
ghost use Rattle.placed_book.specs.Book.{Placed, TabledRows, empty_book, table_at, is_there, spare_of, blocks_at, blocks_of_family, blocks_of_rows, blocks_of_all, IsInOrder};
ghost use Rattle.placed_book.specs.Changes.{IsSwapped, IsChangedAt};
ghost use Rattle.placed_book.specs.Rivals.{coincide_in, is_rival, stays_among};
ghost use Rattle.placed_book.specs.Figures.{around, inside};
ghost use Rattle.placed_book.specs.Firsts.{ArePlaces, ids_at, room_of};

mod contract;
mod firsts;
mod indexed;
mod kinds;
mod rivals;
mod row_book;
mod spaces;
mod tables;

use block_space::{Space, lawful};
pub use contract::{Book, in_order};
use firsts::{Firsts, note_first, settle_first, spot_at};
pub use indexed::IndexedBook;
use inet_num::{Block, Family};
use ipam_data::kinds::{HasId, Table, is_one_table};
pub use kinds::host_block;
use rivals::{first_rival, ids_among, is_in_place, least_rival};
pub use row_book::RowBook;
use spaces::TableSpaces;
use std::alloc::{AllocError, Global};
use std::collections::HashMap;
use std::marker::Model;
use tables::Tables;
pub use tables::number as table_number;

/// A row that is in a table and has a block there.
pub trait Located: HasId {
    ghost placed: { Self → Placed };

    /// The VRF whose table the row is in; the global one if it names none.
    fn vrf(&self) -> Option<u32>
        ensures { result ≡ (placed self.now).vrf };

    /// The block of the row.
    fn block(&self) -> Block
        ensures { result ≡ (placed self.now).block };

    // The place has the id of the row.
    ghost same: { (x : Self) → (placed x).id ≡ Self.id_of x };
}

/// Takes the row of an id out of all that is known by the places of rows: its block out of its table and out of the blocks of all
/// tables, and its id out of the first ids. If there is no such row, nothing.
fn forget<T: Located + Drop, S: Space + Drop>(
    rows: &IndexedBook<T>,
    tables: &mut Tables<S>,
    all: &mut TableSpaces<S>,
    firsts: &mut Firsts,
    id: u32,
)
    requires { ArePlaces (map T.placed rows.now.rows) tables.old all.old firsts.old }
    ensures places { ArePlaces (map T.placed (without T.id_of rows.now.rows id)) tables.new all.new firsts.new }
    ensures there { (t : Table) → is_there tables.new t ≡ is_there tables.old t }
    ensures spares { (t : Table) → spare_of tables.old t ≤ spare_of tables.new t }
    ensures spare { all.old.spare ≤ all.new.spare }
    ensures room { room_of firsts.old ≤ room_of firsts.new }
{
    in_order(rows);
    if let Some(row) = rows.get(id) {
        let table = Table::of(row.vrf());
        let block = row.block();
        let next = first_rival(rows, tables, firsts, row);
        settle_first(firsts, spot_at(table, &block), next);
        tables.remove(table, block);
        all.remove(block);
    }
}

/// Rows in the order of their ids, and the spaces of their tables.
///
/// A contract sees the rows, the spare (how many more rows can be put without memory), the existing tables, each with its
/// own spare and its blocks, and the blocks of all tables together.
#[derive(Drop)]
pub struct PlacedBook<T: Located, S: Space> {
    rows: IndexedBook<T>,
    tables: Tables<S>,
    all: TableSpaces<S>,
    firsts: Firsts,
    spare: u32,
}

impl<T: Located, S: Space> Model for PlacedBook<T, S> {
    ghost use Rattle.std.specs.Prelude.{◌≤◌, map};
    ghost use Rattle.placed_book.specs.Book.{TabledRows};
    ghost use Rattle.placed_book.specs.Firsts.{HasFirsts, room_of};
    ghost use Rattle.placed_book.specs.Codes.{book_code};

    ghost Value = { TabledRows T };

    ghost coded = { book_code T.code };

    ghost view = { λ b. record { rows = b.rows.rows; spare = b.spare; tables = b.tables; all = b.all } };

    ghost invariant = { λ b. (b.spare ≤ b.rows.spare) × (b.spare ≤ b.all.spare) × (b.spare ≤ room_of b.firsts) × HasFirsts (map T.placed b.rows.rows) b.firsts };
}

impl<T: Located + Drop, S: Space + Drop> PlacedBook<T, S> {
    /// A book without rows and without room, in which the global table exists. It takes no memory.
    pub fn new(alloc: Global) -> PlacedBook<T, S>
        ensures empty { result ≡ empty_book }
        ensures order { IsInOrder T.placed result }
    {
        PlacedBook {
            rows: IndexedBook::new(alloc),
            tables: Tables::new(alloc),
            all: TableSpaces::new(alloc, Table::Global),
            firsts: HashMap::new(alloc),
            spare: 0,
        }
    }

    /// How many rows there are: fewer than 2^30. Their ids rise.
    pub fn len(&self) -> u32
        ensures len { result ≡ length self.now.rows }
        ensures few { length self.now.rows < 2 ^ 30 }
        ensures ordered { Rises T.id_of 0 self.now.rows }
    {
        self.rows.len()
    }

    /// What holds of every book: the ids of its rows rise, and there are fewer than 2^30 of them. A law, for callers.
    pub fn in_order(&self)
        ensures few { length self.now.rows < 2 ^ 30 }
        ensures ordered { Rises T.id_of 0 self.now.rows }
    {
        in_order(&self.rows);
    }

    /// The row at an index, in the order of their ids.
    pub fn at(&self, index: u32) -> Option<&T>
        ensures { option_copied result ≡ slice_get self.now.rows index }
    {
        self.rows.at(index)
    }

    /// The row of this id.
    pub fn get(&self, id: u32) -> Option<&T>
        ensures { option_copied result ≡ row_at T.id_of self.now.rows id }
    {
        self.rows.get(id)
    }

    /// The row of the least id above this one.
    pub fn after(&self, id: u32) -> Option<&T>
        ensures { option_copied result ≡ row_after T.id_of self.now.rows id }
    {
        self.rows.after(id)
    }

    /// Makes room for `n` more rows. `Err` means out of memory, and does not change the book.
    pub fn reserve(&mut self, n: u32) -> Result<(), AllocError>
        requires order { IsInOrder T.placed self.old }
        requires few { length self.old.rows + n < 2 ^ 30 }
        ensures order { IsInOrder T.placed self.new }
        ensures rows { self.new.rows ≡ self.old.rows }
        ensures tables { self.new.tables ≡ self.old.tables }
        ensures all { (family : Family) → blocks_of_family self.new.all family ≡ blocks_of_family self.old.all family }
        ensures ok { OnOk result (n ≤ self.new.spare) }
        ensures kept { self.old.spare ≤ self.new.spare }
        ensures err { OnErr result (self.new ≡ self.old) }
    {
        in_order(&self.rows);
        self.rows.reserve(n)?;
        self.firsts.reserve(n as usize)?;
        self.all.reserve(n)?;
        if self.spare < n {
            self.spare = n;
        }
        Ok(())
    }

    /// Makes the table if it does not exist, and makes its room at least `n` rows of either family. `Err` means out of memory,
    /// and does not change the book.
    pub fn reserve_table(&mut self, table: Table, n: u32) -> Result<(), AllocError>
        requires order { IsInOrder T.placed self.old }
        requires few { length self.old.rows + n < 2 ^ 30 }
        ensures order { IsInOrder T.placed self.new }
        ensures rows { self.new.rows ≡ self.old.rows }
        ensures spare { self.new.spare ≡ self.old.spare }
        ensures all { self.new.all ≡ self.old.all }
        ensures there { OnOk result (is_there self.new.tables table ≡ true) }
        ensures ok { OnOk result (n ≤ spare_of self.new.tables table) }
        ensures kept { (t : Table) → spare_of self.old.tables t ≤ spare_of self.new.tables t }
        ensures blocks { (t : Table) (family : Family) → blocks_at self.new.tables t family ≡ blocks_at self.old.tables t family }
        ensures others { (t : Table) → same_table t table ≡ false → table_at self.new.tables t ≡ table_at self.old.tables t }
        ensures err { OnErr result (self.new ≡ self.old) }
    {
        self.tables.reserve(table, n)
    }

    /// Puts the row in the place of the one of its id, or else after all: its id is then above all others. It takes no
    /// memory, and uses up at most one row's room of the book and of the row's table. If the row of its id is of its table
    /// and has its block, the spaces stay as they are, and the table needs no room.
    pub fn put(&mut self, row: T)
        requires order { IsInOrder T.placed self.old }
        requires room { 1 ≤ self.old.spare }
        requires table_room { stays_among T.id_of T.placed self.old.rows row ≡ false → 1 ≤ spare_of self.old.tables (table_of (T.placed row).vrf) }
        requires id { 1 ≤ T.id_of row }
        requires fits { IsFitting T.id_of self.old.rows row }
        ensures order { IsInOrder T.placed self.new }
        ensures rows { self.new.rows ≡ with_row T.id_of self.old.rows row }
        ensures spare { self.old.spare ≤ self.new.spare + 1 }
        ensures there { (t : Table) → is_there self.new.tables t ≡ is_there self.old.tables t }
        ensures table_spare { spare_of self.old.tables (table_of (T.placed row).vrf) ≤ spare_of self.new.tables (table_of (T.placed row).vrf) + 1 }
        ensures other_spares { (t : Table) → same_table t (table_of (T.placed row).vrf) ≡ false → spare_of self.old.tables t ≤ spare_of self.new.tables t }
        ensures tables { stays_among T.id_of T.placed self.old.rows row ≡ true → self.new.tables ≡ self.old.tables }
        ensures all { stays_among T.id_of T.placed self.old.rows row ≡ true → self.new.all ≡ self.old.all }
    {
        in_order(&self.rows);
        self.spare -= 1;
        if is_in_place(&self.rows, &row) {
            self.rows.put(row);
            return;
        }
        let id = row.id();
        let table = Table::of(row.vrf());
        let block = row.block();
        forget(
            &self.rows,
            &mut self.tables,
            &mut self.all,
            &mut self.firsts,
            id,
        );
        self.tables.insert(table, block);
        self.all.insert(block);
        note_first(&mut self.firsts, spot_at(table, &block), id);
        self.rows.put(row);
    }

    /// Takes the row of this id out, and hands it out; `None` if there is none. It leaves all room.
    pub fn cut(&mut self, id: u32) -> Option<T>
        requires { IsInOrder T.placed self.old }
        ensures order { IsInOrder T.placed self.new }
        ensures row { result ≡ row_at T.id_of self.old.rows id }
        ensures rows { self.new.rows ≡ without T.id_of self.old.rows id }
        ensures spare { self.old.spare ≤ self.new.spare }
        ensures there { (t : Table) → is_there self.new.tables t ≡ is_there self.old.tables t }
        ensures spares { (t : Table) → spare_of self.old.tables t ≤ spare_of self.new.tables t }
    {
        forget(
            &self.rows,
            &mut self.tables,
            &mut self.all,
            &mut self.firsts,
            id,
        );
        self.rows.cut(id)
    }

    /// How many rows of other ids are in the row's table with the row's block. It takes no memory, and asks the table's space once:
    /// the table has the block so often, and once more if the row of the row's id accounts for it.
    pub fn count_rivals(&self, row: &T) -> u32
        requires { IsInOrder T.placed self.now }
        ensures { result ≡ count_by (is_rival T.id_of T.placed row.now) self.now.rows }
    {
        in_order(&self.rows);
        let own = is_in_place(&self.rows, row) as u32;
        self.tables.times(Table::of(row.vrf()), row.block()) - own
    }

    /// Whether no row of another id is in the row's table with the row's block. It takes no memory, and asks the table's space once.
    pub fn is_alone(&self, row: &T) -> bool
        requires { IsInOrder T.placed self.now }
        ensures { MatchBool result (least T.id_of (is_rival T.id_of T.placed row.now) self.now.rows ≡ None) (IsSome (least T.id_of (is_rival T.id_of T.placed row.now) self.now.rows)) }
    {
        if self.count_rivals(row) == 0 {
            return true;
        }
        false
    }

    /// The least id of another row of the row's table with the row's block. It takes no memory, and is one look-up of the least id
    /// there; only if that is the row's own, and the table has the block once more, it looks at the rows.
    pub fn rival(&self, row: &T) -> Option<u32>
        requires { IsInOrder T.placed self.now }
        ensures { result ≡ least T.id_of (is_rival T.id_of T.placed row.now) self.now.rows }
    {
        first_rival(&self.rows, &self.tables, &self.firsts, row)
    }

    /// The ids of the rows of a table with this block, in their order. If the table has the block once or never, that is one
    /// look-up of the least id there; else it looks at the rows. The one error means out of memory.
    pub fn ids_at(&self, alloc: Global, table: Table, block: Block) -> Result<Vec<u32>, AllocError>
        requires { IsInOrder T.placed self.now }
        ensures { IfOk result (λ v. v.items ≡ ids_at (map T.placed self.now.rows) table block) }
    {
        let mut ids = Vec::new(alloc);
        let Some(first) = self.firsts.get(&spot_at(table, &block)) else {
            return Ok(ids);
        };
        if self.tables.times(table, block) == 1 {
            ids.push(*first)?;
            return Ok(ids);
        }
        ids_among(alloc, &self.rows, table, &block)
    }

    /// The least ids of two rows of the table with one block, or `None` if it has each block once: the lesser id is the least
    /// of one that has a later one like it.
    pub fn same_block_pair(&self, table: Table) -> Option<(u32, u32)>
        requires { IsInOrder T.placed self.now }
        ensures { result ≡ least_pair T.id_of (coincide_in T.placed table) self.now.rows }
    {
        in_order(&self.rows);
        let count = self.rows.len();
        'rows: for index in 0..count {
            if let Some(row) = self.rows.at(index) {
                if is_one_table(Table::of(row.vrf()), table) {
                    if let Some(other) = least_rival(&self.rows, &self.tables, index + 1, row) {
                        return Some((row.id(), other));
                    }
                }
            }
        }
        None
    }

    /// How many different blocks of a row's table contain its block strictly, whether or not the row exists. It asks the table's
    /// space once.
    pub fn count_around(&self, row: &T) -> u32
        requires { IsInOrder T.placed self.now }
        ensures { result ≡ around (map T.placed self.now.rows) (T.placed row.now) }
    {
        let block = row.block();
        block.bounds();
        match self.tables.at(Table::of(row.vrf())) {
            Some(spaces) => {
                let space = spaces.space(block.family());
                lawful(space);
                space.around(block)
            }
            None => 0,
        }
    }

    /// How many rows of a row's table lie strictly inside its block, whether or not the row exists.
    pub fn count_inside(&self, row: &T) -> u32
        requires { IsInOrder T.placed self.now }
        ensures { result ≡ inside (map T.placed self.now.rows) (T.placed row.now) }
    {
        let block = row.block();
        block.bounds();
        match self.tables.at(Table::of(row.vrf())) {
            Some(spaces) => {
                let space = spaces.space(block.family());
                lawful(space);
                space.counting(block, true)
            }
            None => 0,
        }
    }

    /// The space of a table's blocks of one family, or `None` exactly if it does not exist: it is not the global one,
    /// and `reserve_table` has not made it.
    pub fn space(&self, table: Table, family: Family) -> Option<&S>
        requires { IsInOrder T.placed self.now }
        ensures there { IsSome result ↔ (is_there self.now.tables table ≡ true) }
        ensures family { IfSome result (λ s. S.family_of s.now ≡ family) }
        ensures held { IfSome result (λ s. S.held s.now ≡ blocks_at self.now.tables table family) }
        ensures blocks { IfSome result (λ s. IsPermutation (blocks_of_rows (map T.placed self.now.rows) table family) (S.held s.now)) }
    {
        match self.tables.at(table) {
            Some(spaces) => Some(spaces.space(family)),
            None => None,
        }
    }

    /// The space of the blocks of all tables of one family.
    pub fn all(&self, family: Family) -> &S
        requires { IsInOrder T.placed self.now }
        ensures family { S.family_of result.now ≡ family }
        ensures held { S.held result.now ≡ blocks_of_family self.now.all family }
        ensures blocks { IsPermutation (blocks_of_all (map T.placed self.now.rows) family) (S.held result.now) }
    {
        self.all.space(family)
    }

    /// Puts another space in the place of that of a table and a family, and hands out the one that existed. The table
    /// exists. The book need not be in order, and is so again when the space is given back with the same blocks.
    pub fn swap(&mut self, table: Table, family: Family, other: S) -> S
        requires there { is_there self.old.tables table ≡ true }
        requires family { S.family_of other ≡ family }
        ensures rows { self.new.rows ≡ self.old.rows }
        ensures spare { self.new.spare ≡ self.old.spare }
        ensures all { self.new.all ≡ self.old.all }
        ensures swapped { IsChangedAt table (IsSwapped family (S.held other)) self.old.tables self.new.tables }
        ensures held { S.held result ≡ blocks_at self.old.tables table family }
        ensures family { S.family_of result ≡ family }
    {
        self.tables.swap(table, family, other)
    }

    /// The same with the blocks of all tables of the other space's family.
    pub fn swap_all(&mut self, other: S) -> S
        ensures rows { self.new.rows ≡ self.old.rows }
        ensures tables { self.new.tables ≡ self.old.tables }
        ensures swapped { IsSwapped (S.family_of other) (S.held other) self.old.all self.new.all }
        ensures held { S.held result ≡ blocks_of_family self.old.all (S.family_of other) }
        ensures family { S.family_of result ≡ S.family_of other }
    {
        self.spare = 0;
        let family = other.family();
        self.all.swap(family, other)
    }
}
