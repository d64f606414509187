//! Claims of blocks given the prefixes: a space is taken out of the book for the plan, and returns with the same blocks.

ghost use Rattle.std.specs.Prelude.{◌≡◌, ℕ, ◌+◌, ◌^◌, ◌<◌, true, length, IfOk, IfErr, IsPermutation};
ghost use Rattle.ipam_data.specs.declared.kinds.Table.{Table};
ghost use Rattle.block_space.specs.Listed.{counting_of};
ghost use Rattle.block_space.specs.Fit.{fits_of};
ghost use Rattle.block_claim.specs.Claims.{IsShort, FitInside};
ghost use Rattle.placed_book.specs.Book.{is_there};
ghost use Rattle.prefix_rules.specs.Book.{IsInOrder};
ghost use Rattle.register_tables.specs.Held.{state_of};
ghost use Rattle.register_tables.specs.Beside.{blocks_in_table, blocks_in_all};

use crate::RowTables;
use block_claim::{ClaimFault, plan_blocks};
use block_space::{Space, Steps};
use inet_num::Block;
use ipam_data::kinds::Table;
use prefix_rules::PrefixBook;
use std::alloc::Global;
use std::marker::Brand;
use std::sync::ledger::{Blank, Ledger};

/// The plan of a claim in a space, for which room is made, on its own counter.
fn plan_counted<S: Space, L: Ledger>(
    alloc: Global,
    kids: &mut S,
    within: Block,
    wanted: &[u8],
    blank: Blank,
) -> Result<Vec<Block>, ClaimFault>
    requires name { blank.name ≡ L.name }
    requires parts { blank.parts ≡ L.parts }
    requires some { 0 < blank.parts }
    requires family { within.family ≡ S.family_of kids.old }
    requires lengths { FitInside within wanted.now }
    requires few { length (S.held kids.old) + length wanted.now < 2 ^ 30 }
    ensures ok { IfOk result (λ v. (v.items ≡ fits_of within (counting_of (S.held kids.old) within true) wanted.now) × (length v.items ≡ length wanted.now)) }
    ensures err { IfErr result (IsShort (length wanted.now) (length (fits_of within (counting_of (S.held kids.old) within true) wanted.now))) }
    ensures same { IsPermutation (S.held kids.old) (S.held kids.new) }
    ensures family { S.family_of kids.new ≡ S.family_of kids.old }
{
    let mut steps = Steps::<L>::new(blank);
    kids.reserve(wanted.len() as u32)?;
    plan_blocks(alloc, kids, within, wanted, &mut steps)
}

/// What lengths get in a block given the prefixes of a table.
fn plan_in_table<S: Space + Drop>(
    alloc: Global,
    book: &mut PrefixBook<S>,
    table: Table,
    within: Block,
    wanted: &[u8],
) -> Result<Vec<Block>, ClaimFault>
    requires order { IsInOrder book.old }
    requires there { is_there book.old.tables table ≡ true }
    requires lengths { FitInside within wanted.now }
    requires few { length book.old.rows + length wanted.now < 2 ^ 30 }
    ensures order { IsInOrder book.new }
    ensures rows { book.new.rows ≡ book.old.rows }
    ensures ok { IfOk result (λ v. (v.items ≡ fits_of within (counting_of (blocks_in_table book.old.rows table within.family) within true) wanted.now) × (length v.items ≡ length wanted.now)) }
    ensures err { IfErr result (IsShort (length wanted.now) (length (fits_of within (counting_of (blocks_in_table book.old.rows table within.family) within true) wanted.now))) }
{
    book.in_order();
    let family = within.family();
    let mut kids = book.swap(table, family, S::new(alloc, family));
    let planned = plan_counted::<S, Brand>(alloc, &mut kids, within, wanted, Blank::new(1));
    let _empty = book.swap(table, family, kids);
    planned
}

/// The same given the prefixes of every table.
fn plan_in_all<S: Space + Drop>(
    alloc: Global,
    book: &mut PrefixBook<S>,
    within: Block,
    wanted: &[u8],
) -> Result<Vec<Block>, ClaimFault>
    requires order { IsInOrder book.old }
    requires lengths { FitInside within wanted.now }
    requires few { length book.old.rows + length wanted.now < 2 ^ 30 }
    ensures order { IsInOrder book.new }
    ensures rows { book.new.rows ≡ book.old.rows }
    ensures ok { IfOk result (λ v. (v.items ≡ fits_of within (counting_of (blocks_in_all book.old.rows within.family) within true) wanted.now) × (length v.items ≡ length wanted.now)) }
    ensures err { IfErr result (IsShort (length wanted.now) (length (fits_of within (counting_of (blocks_in_all book.old.rows within.family) within true) wanted.now))) }
{
    book.in_order();
    let mut kids = book.swap_all(S::new(alloc, within.family()));
    let planned = plan_counted::<S, Brand>(alloc, &mut kids, within, wanted, Blank::new(1));
    let _empty = book.swap_all(kids);
    planned
}

impl RowTables {
    /// The blocks that lengths get in a block one after another by `plan_blocks`, each the lowest that is free given the
    /// prefixes of a table strictly inside the block and the blocks that the lengths before it got. The rows stay, and no room
    /// is left in the table. `NoSpace` is the first length that gets none; `Memory` means out of memory.
    pub fn fits_in_table(
        &mut self,
        table: Table,
        within: Block,
        wanted: &[u8],
    ) -> Result<Vec<Block>, ClaimFault>
        requires there { is_there self.old.prefixes.tables table ≡ true }
        requires lengths { FitInside within wanted.now }
        requires few { length self.old.prefixes.rows + length wanted.now < 2 ^ 30 }
        ensures state { state_of self.new ≡ state_of self.old }
        ensures ok { IfOk result (λ v. (v.items ≡ fits_of within (counting_of (blocks_in_table self.old.prefixes.rows table within.family) within true) wanted.now) × (length v.items ≡ length wanted.now)) }
        ensures err { IfErr result (IsShort (length wanted.now) (length (fits_of within (counting_of (blocks_in_table self.old.prefixes.rows table within.family) within true) wanted.now))) }
    {
        plan_in_table(self.alloc, &mut self.prefixes, table, within, wanted)
    }

    /// The same given the prefixes of every table.
    pub fn fits_in_all(&mut self, within: Block, wanted: &[u8]) -> Result<Vec<Block>, ClaimFault>
        requires lengths { FitInside within wanted.now }
        requires few { length self.old.prefixes.rows + length wanted.now < 2 ^ 30 }
        ensures state { state_of self.new ≡ state_of self.old }
        ensures ok { IfOk result (λ v. (v.items ≡ fits_of within (counting_of (blocks_in_all self.old.prefixes.rows within.family) within true) wanted.now) × (length v.items ≡ length wanted.now)) }
        ensures err { IfErr result (IsShort (length wanted.now) (length (fits_of within (counting_of (blocks_in_all self.old.prefixes.rows within.family) within true) wanted.now))) }
    {
        plan_in_all(self.alloc, &mut self.prefixes, within, wanted)
    }
}
