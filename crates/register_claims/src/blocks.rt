//! The calls on the blocks of a prefix: which are free, and a claim of some.

ghost use Rattle.std.specs.Prelude.{◌≡◌, ℕ, ◌+◌, ◌≤◌, ◌<◌, ◌^◌, [], IfOk, IfErr, length, take};
ghost use Rattle.inet_num.specs.Free.{available_blocks_of};
ghost use Rattle.block_space.specs.Fit.{fits_of};
ghost use Rattle.block_claim.specs.Claims.{IsShort, FitInside};
ghost use Rattle.ipam_data.specs.Lawful.{IsLawful};
ghost use Rattle.ipam_data.specs.RowList.{row_at};
ghost use Rattle.ipam_data.specs.Rows.{prefix_id};
ghost use Rattle.ipam_data.specs.Prefixes.{prefix_rules};
ghost use Rattle.ipam_data.specs.Claims.{most_items, child_blocks, claimed_prefixes, claim, claim_blocks_of, blocks_plan, claim_blocks_plan};
ghost use Rattle.register_tables.specs.Held.{state_of};
ghost use Rattle.register_tables.specs.Planned.{IsPlanned};
ghost use Rattle.register_claims.specs.Children.{IsThere};

use crate::checks::{changed, no_place, served, stopped};
use crate::children::{sees_all, space_beside};
use crate::items::{claim_fault, claimed_views, lengths};
use block_claim::ClaimFault;
use free_space::available_blocks;
use inet_num::Block;
use ipam_data::calls::{Answered, BlockItem};
use ipam_data::kinds::{Kind, Table};
use ipam_data::prefix::{MOST_PREFIXES, Prefix};
use ipam_data::replies::{Blocks, Refusal, Reply};
use register_tables::{Planned, RowTables};
use std::alloc::AllocError;

/// The first available blocks of an existing prefix, at most `limit`: the largest free ones, in order. `Err` means out of memory.
pub fn available_in(
    row_tables: &RowTables,
    row: &Prefix,
    limit: u32,
) -> Result<Vec<Block>, AllocError>
    requires lawful { IsLawful (state_of row_tables.now) }
    requires there { IsThere row_tables.now.prefixes.rows row.now }
    ensures { IfOk result (λ v. v.items ≡ take limit (available_blocks_of row.now.block (child_blocks row_tables.now.prefixes.rows row.now))) }
{
    let kids = space_beside(row_tables.prefixes(), row);
    available_blocks(row_tables.allocator(), kids, row.block, limit)
}

/// Reads the first available blocks of the prefix of an id, at most `limit`: the largest free ones, in order. `Err` means out
/// of memory.
pub fn plan_available_blocks(
    row_tables: &RowTables,
    id: u32,
    limit: u32,
) -> Result<Planned, AllocError>
    requires { IsLawful (state_of row_tables.now) }
    ensures { IfOk result (λ p. IsPlanned (blocks_plan (state_of row_tables.now) id limit) p) }
{
    match row_tables.prefixes().get(id) {
        Some(row) => {
            let list = available_in(row_tables, row, limit)?;
            Ok(Planned::Read(Reply::Blocks {
                vrf: row.vrf,
                list: Blocks::of(list),
            }))
        }
        None => Ok(Planned::Refused(Refusal::NotFound(Kind::Prefixes, id))),
    }
}

/// What lengths get in an existing prefix, given the prefixes that count for it.
fn fits(row_tables: &mut RowTables, row: &Prefix, wanted: &[u8]) -> Result<Vec<Block>, ClaimFault>
    requires lawful { IsLawful (state_of row_tables.old) }
    requires there { IsThere row_tables.old.prefixes.rows row.now }
    requires lengths { FitInside row.now.block wanted.now }
    requires few { length wanted.now ≤ most_items }
    ensures state { state_of row_tables.new ≡ state_of row_tables.old }
    ensures ok { IfOk result (λ v. (v.items ≡ fits_of row.now.block (child_blocks row_tables.old.prefixes.rows row.now) wanted.now) × (length v.items ≡ length wanted.now)) }
    ensures err { IfErr result (IsShort (length wanted.now) (length (fits_of row.now.block (child_blocks row_tables.old.prefixes.rows row.now) wanted.now))) }
{
    row_tables.prefixes().in_order();
    if sees_all(row) {
        return row_tables.fits_in_all(row.block, wanted);
    }
    row_tables.fits_in_table(Table::of(row.vrf), row.block, wanted)
}

/// Plans the prefixes of items that got a block each. `Err` means out of memory.
fn plan_rows(
    row_tables: &RowTables,
    row: &Prefix,
    answered: Answered,
    items: &[BlockItem],
    blocks: &[Block],
) -> Result<Planned, AllocError>
    requires each { length blocks.now ≡ length items.now }
    requires few { length items.now ≤ most_items }
    ensures { IfOk result (λ p. IsPlanned (claim prefix_rules (state_of row_tables.now) [] (length items.now) answered (claimed_prefixes row.now row_tables.now.next_prefix items.now blocks.now)) p) }
{
    let wanted = items.len() as u32;
    let next = row_tables.next(Kind::Prefixes);
    let count = row_tables.prefixes().len();
    match no_place(
        Kind::Prefixes,
        MOST_PREFIXES,
        count,
        next,
        row_tables.spent(),
        wanted,
    ) {
        Some(refusal) => return Ok(Planned::Refused(refusal)),
        None => {}
    }
    let alloc = row_tables.allocator();
    let puts = claimed_views(alloc, row, next, items, blocks)?;
    let again = claimed_views(alloc, row, next, items, blocks)?;
    let reply = served(answered, again);
    changed(alloc, puts, Kind::Prefixes, next + wanted, wanted, reply)
}

/// Plans a claim in an existing prefix. `Err` means out of memory.
fn plan_claimed(
    row_tables: &mut RowTables,
    row: &Prefix,
    answered: Answered,
    items: &[BlockItem],
) -> Result<Planned, AllocError>
    requires lawful { IsLawful (state_of row_tables.old) }
    requires there { IsThere row_tables.old.prefixes.rows row.now }
    ensures state { state_of row_tables.new ≡ state_of row_tables.old }
    ensures plan { IfOk result (λ p. IsPlanned (claim_blocks_of (state_of row_tables.old) answered items.now row.now) p) }
{
    match claim_fault(row_tables, row, items) {
        Some(refusal) => return Ok(Planned::Refused(refusal)),
        None => {}
    }
    let wanted = lengths(row_tables.allocator(), items)?;
    match fits(row_tables, row, wanted.as_slice()) {
        Ok(blocks) => plan_rows(row_tables, row, answered, items, blocks.as_slice()),
        Err(fault) => stopped(fault),
    }
}

/// The prefix of an id, as its own row. `Err` means out of memory.
fn prefix_of(row_tables: &RowTables, id: u32) -> Result<Option<Prefix>, AllocError>
    ensures { IfOk result (λ found. found ≡ row_at prefix_id row_tables.now.prefixes.rows id) }
{
    match row_tables.prefixes().get(id) {
        Some(row) => {
            let row = row.copy()?;
            Ok(Some(row))
        }
        None => Ok(None),
    }
}

/// Plans a claim of blocks in the prefix of an id: each item gets the lowest free block of its length given the prefixes that
/// count and the blocks of the items before it. The rows stay; a space of the book is lent to the plan, and no room is left in
/// its table. `Err` means out of memory.
pub fn plan_claim_blocks(
    row_tables: &mut RowTables,
    id: u32,
    answered: Answered,
    items: &[BlockItem],
) -> Result<Planned, AllocError>
    requires { IsLawful (state_of row_tables.old) }
    ensures state { state_of row_tables.new ≡ state_of row_tables.old }
    ensures plan { IfOk result (λ p. IsPlanned (claim_blocks_plan (state_of row_tables.old) id answered items.now) p) }
{
    match prefix_of(row_tables, id)? {
        Some(row) => plan_claimed(row_tables, &row, answered, items),
        None => Ok(Planned::Refused(Refusal::NotFound(Kind::Prefixes, id))),
    }
}
