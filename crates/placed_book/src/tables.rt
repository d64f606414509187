//! The existing tables of blocks: the global one and those of VRFs, each with a space of each family.

ghost use Rattle.std.specs.Prelude.{◌≡◌, ℕ, ◌+◌, ◌^◌, ◌<◌, ◌≤◌, ◌∷◌, [], true, IfOk, IfErr, OnOk, OnErr, length, option_copied};
ghost use Rattle.inet_num.specs.declared.Family.{Family};
ghost use Rattle.ipam_data.specs.declared.kinds.Table.TheVariants.{Global as GlobalTable};
ghost use Rattle.ipam_data.specs.RowList.{Rises};
ghost use Rattle.block_space.specs.Listed.{times_of};
ghost use Rattle.placed_book.specs.RowBook.{IsAt};
ghost use Rattle.placed_book.specs.Book.{TableBlocks, empty_table, table_at, is_there, spare_of, blocks_at};
ghost use Rattle.placed_book.specs.Changes.{IsOneMore, IsOneLess, IsSwapped, IsChangedAt, IsReserved, IsSpaceOf};
ghost use Rattle.placed_book.specs.Keys.{number_of, key_of, IsGapFor};

use crate::spaces::TableSpaces;
use block_space::Space;
use inet_num::{Block, Family};
use ipam_data::kinds::Table;
use std::alloc::{AllocError, Global};
use std::marker::Model;

/// The number by which a table is in its place.
pub fn number(table: Table) -> u64
    ensures { result ≡ number_of table }
{
    match table {
        Table::Global => 0,
        Table::Of(id) => id as u64 + 1,
    }
}

/// The index of a table, by halving. `Err` is the place where it would be.
fn search<S: Space>(of_vrfs: &[TableSpaces<S>], table: Table) -> Result<usize, usize>
    requires { Rises key_of 0 of_vrfs.now }
    ensures at { IfOk result (λ k. IsAt key_of of_vrfs.now (number_of table) k) }
    ensures none { IfErr result (λ k. IsGapFor (number_of table) of_vrfs.now k) }
{
    let wanted = number(table);
    let mut low = 0;
    let mut high = of_vrfs.len();
    while low < high {
        let middle = low + (high - low) / 2;
        if number(of_vrfs[middle].table()) < wanted {
            low = middle + 1;
        } else {
            high = middle;
        }
    }
    if low == of_vrfs.len() {
        return Err(low);
    }
    if number(of_vrfs[low].table()) == wanted {
        return Ok(low);
    }
    Err(low)
}

/// The existing tables: the global one, and those of VRFs in the order of the VRFs' ids.
#[derive(Drop)]
pub struct Tables<S: Space> {
    alloc: Global,
    global: TableSpaces<S>,
    of_vrfs: Vec<TableSpaces<S>>,
}

impl<S: Space> Model for Tables<S> {
    ghost use Rattle.std.specs.Prelude.{◌≡◌, ◌∷◌, List};
    ghost use Rattle.ipam_data.specs.declared.kinds.Table.TheVariants.{Global as GlobalTable};
    ghost use Rattle.ipam_data.specs.RowList.{Rises};
    ghost use Rattle.placed_book.specs.Book.{TableBlocks};
    ghost use Rattle.placed_book.specs.Keys.{key_of};

    ghost Value = { List TableBlocks };

    ghost view = { λ t. t.global ∷ t.of_vrfs.items };

    ghost invariant = { λ t. (t.global.table ≡ GlobalTable) × Rises key_of 0 t.of_vrfs.items };
}

impl<S: Space + Drop> Tables<S> {
    /// The global table alone, without blocks and without room. It takes no memory.
    pub fn new(alloc: Global) -> Tables<S>
        ensures { result ≡ empty_table GlobalTable ∷ [] }
    {
        Tables {
            alloc,
            global: TableSpaces::new(alloc, Table::Global),
            of_vrfs: Vec::new(alloc),
        }
    }

    /// The table, if it exists.
    pub fn at(&self, table: Table) -> Option<&TableSpaces<S>>
        ensures { option_copied result ≡ table_at self.now table }
    {
        match table {
            Table::Global => Some(&self.global),
            Table::Of(_) => match search(self.of_vrfs.as_slice(), table) {
                Ok(at) => Some(&self.of_vrfs[at]),
                Err(_) => None,
            },
        }
    }

    /// How often a table has a block: never, if it does not exist.
    pub fn times(&self, table: Table, block: Block) -> u32
        ensures { result ≡ times_of (blocks_at self.now table block.family) block }
    {
        match self.at(table) {
            Some(spaces) => spaces.space(block.family()).times(block),
            None => 0,
        }
    }

    /// One more block of a table that exists and has room. It takes no memory.
    pub fn insert(&mut self, table: Table, block: Block)
        requires room { 1 ≤ spare_of self.old table }
        requires few { length (blocks_at self.old table block.family) < 2 ^ 30 }
        ensures { IsChangedAt table (IsOneMore block) self.old self.new }
    {
        match table {
            Table::Global => self.global.insert(block),
            Table::Of(_) => match search(self.of_vrfs.as_slice(), table) {
                Ok(at) => self.of_vrfs[at].insert(block),
                Err(_) => {}
            },
        }
    }

    /// One block fewer of a table that has it.
    pub fn remove(&mut self, table: Table, block: Block)
        requires { 0 < times_of (blocks_at self.old table block.family) block }
        ensures { IsChangedAt table (IsOneLess block) self.old self.new }
    {
        match table {
            Table::Global => self.global.remove(block),
            Table::Of(_) => match search(self.of_vrfs.as_slice(), table) {
                Ok(at) => self.of_vrfs[at].remove(block),
                Err(_) => {}
            },
        }
    }

    /// Puts another space in the place of that of a table and a family, and hands out the one that existed. The table
    /// exists, and its room is not known until the next `reserve`.
    pub fn swap(&mut self, table: Table, family: Family, other: S) -> S
        requires there { is_there self.old table ≡ true }
        requires family { S.family_of other ≡ family }
        ensures swapped { IsChangedAt table (IsSwapped family (S.held other)) self.old self.new }
        ensures out { IsSpaceOf S.family_of S.held family (blocks_at self.old table family) result }
    {
        match table {
            Table::Global => self.global.swap(family, other),
            Table::Of(_) => match search(self.of_vrfs.as_slice(), table) {
                Ok(at) => self.of_vrfs[at].swap(family, other),
                Err(_) => other,
            },
        }
    }

    /// Makes the table if it does not exist, and makes its room at least `n` blocks of either family. `Err` means out
    /// of memory, and does not change the tables.
    pub fn reserve(&mut self, table: Table, n: u32) -> Result<(), AllocError>
        requires { (family : Family) → length (blocks_at self.old table family) + n < 2 ^ 30 }
        ensures ok { OnOk result (IsReserved table n self.old self.new) }
        ensures err { OnErr result (self.new ≡ self.old) }
    {
        match table {
            Table::Global => self.global.reserve(n),
            Table::Of(_) => match search(self.of_vrfs.as_slice(), table) {
                Ok(at) => self.of_vrfs[at].reserve(n),
                Err(at) => {
                    let mut spaces = TableSpaces::new(self.alloc, table);
                    spaces.reserve(n)?;
                    self.of_vrfs.insert(at, spaces)?;
                    Ok(())
                }
            },
        }
    }
}
