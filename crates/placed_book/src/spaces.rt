//! One table, with a space of each family.

ghost use Rattle.std.specs.Prelude.{◌≡◌, ℕ, ◌+◌, ◌^◌, ◌<◌, ◌≤◌, OnOk, OnErr, length};
ghost use Rattle.inet_num.specs.declared.Family.{Family};
ghost use Rattle.block_space.specs.Listed.{times_of};
ghost use Rattle.placed_book.specs.Book.{TableBlocks, empty_table, blocks_of_family};
ghost use Rattle.placed_book.specs.Changes.{IsOneMore, IsOneLess, IsRoomier, IsSwapped, IsSpaceOf};

use block_space::Space;
use inet_num::{Block, Family};
use ipam_data::kinds::Table;
use std::alloc::{AllocError, Global};
use std::marker::Model;
use std::mem;

/// A table with a space of each family, each of which has room for `spare` more blocks.
#[derive(Drop)]
pub struct TableSpaces<S: Space> {
    table: Table,
    spare: u32,
    v4: S,
    v6: S,
}

impl<S: Space> Model for TableSpaces<S> {
    ghost use Rattle.std.specs.Prelude.{◌≡◌, ◌≤◌};
    ghost use Rattle.inet_num.specs.declared.Family.TheVariants.{V4, V6};
    ghost use Rattle.placed_book.specs.Book.{TableBlocks};

    ghost Value = { TableBlocks };

    ghost view = { λ t. record { table = t.table; spare = t.spare; v4 = S.held t.v4; v6 = S.held t.v6 } };

    ghost invariant = { λ t. (S.family_of t.v4 ≡ V4) × (S.family_of t.v6 ≡ V6) × (t.spare ≤ S.room t.v4) × (t.spare ≤ S.room t.v6) };
}

impl<S: Space> TableSpaces<S> {
    /// A table without blocks and without room. It takes no memory.
    pub fn new(alloc: Global, table: Table) -> TableSpaces<S>
        ensures { result ≡ empty_table table }
    {
        TableSpaces {
            table,
            spare: 0,
            v4: S::new(alloc, Family::V4),
            v6: S::new(alloc, Family::V6),
        }
    }

    /// Which table it is.
    pub fn table(&self) -> Table
        ensures { result ≡ self.now.table }
    {
        self.table
    }

    /// The space of its blocks of a family.
    pub fn space(&self, family: Family) -> &S
        ensures { IsSpaceOf S.family_of S.held family (blocks_of_family self.now family) result.now }
    {
        match family {
            Family::V4 => &self.v4,
            Family::V6 => &self.v6,
        }
    }

    /// Puts another space in the place of that of a family, and hands out the one that existed. Its room is not known until
    /// the next `reserve`.
    pub fn swap(&mut self, family: Family, other: S) -> S
        requires { S.family_of other ≡ family }
        ensures swapped { IsSwapped family (S.held other) self.old self.new }
        ensures out { IsSpaceOf S.family_of S.held family (blocks_of_family self.old family) result }
    {
        self.spare = 0;
        match family {
            Family::V4 => mem::replace(&mut self.v4, other),
            Family::V6 => mem::replace(&mut self.v6, other),
        }
    }

    /// Makes its room at least `n` blocks of either family. `Err` means out of memory, and does not change the table.
    pub fn reserve(&mut self, n: u32) -> Result<(), AllocError>
        requires { (family : Family) → length (blocks_of_family self.old family) + n < 2 ^ 30 }
        ensures ok { OnOk result (IsRoomier n self.old self.new) }
        ensures err { OnErr result (self.new ≡ self.old) }
    {
        self.v4.reserve(n)?;
        self.v6.reserve(n)?;
        if self.spare < n {
            self.spare = n;
        }
        Ok(())
    }

    /// One more block. It takes no memory, and uses up at most one block's room.
    pub fn insert(&mut self, block: Block)
        requires room { 1 ≤ self.old.spare }
        requires few { length (blocks_of_family self.old block.family) < 2 ^ 30 }
        ensures { IsOneMore block self.old self.new }
    {
        self.spare -= 1;
        match block.family() {
            Family::V4 => self.v4.insert(block),
            Family::V6 => self.v6.insert(block),
        }
    }

    /// One block fewer, of an existing block. It leaves the room.
    pub fn remove(&mut self, block: Block)
        requires { 0 < times_of (blocks_of_family self.old block.family) block }
        ensures { IsOneLess block self.old self.new }
    {
        let _there = match block.family() {
            Family::V4 => self.v4.remove(block),
            Family::V6 => self.v6.remove(block),
        };
    }
}
