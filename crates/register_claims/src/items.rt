//! The items of a claim of blocks: what is said of them, and the rows that they get.

ghost use Rattle.std.specs.Prelude.{◌≡◌, ℕ, ◌+◌, ◌^◌, ◌<◌, ◌∷◌, IfOk, length, map};
ghost use Rattle.std.specs.List.{flat_map};
ghost use Rattle.ipam_data.specs.declared.replies.Which.TheVariants.{Claims};
ghost use Rattle.ipam_data.specs.declared.replies.View.TheVariants.{Prefix as PrefixView};
ghost use Rattle.ipam_data.specs.Checks.{first, too_many};
ghost use Rattle.ipam_data.specs.Prefixes.{prefix_rules};
ghost use Rattle.ipam_data.specs.Claims.{most_items, told_of_block, lengths_of, claimed_prefixes};
ghost use Rattle.register_tables.specs.Held.{state_of};
ghost use Rattle.register_claims.specs.Claimed.{claimed_prefix};

use crate::checks::too_many_items;
use inet_num::Block;
use ipam_data::calls::BlockItem;
use ipam_data::prefix::Prefix;
use ipam_data::replies::{Refusal, Rule, View};
use register_tables::{RowTables, missing_role};
use std::alloc::{AllocError, Global};

/// Why an item can't be served whatever is free, if so: its length does not fit the prefix, or its role is not there.
fn fault_of(row_tables: &RowTables, row: &Prefix, item: &BlockItem) -> Option<Refusal>
    ensures { result ≡ first (told_of_block (state_of row_tables.now) row.now item.now) }
{
    if item.len <= row.block.len() || item.len > row.block.family().width() {
        return Some(Refusal::Rule(Rule::WantedLength));
    }
    match missing_role(row_tables, item.role) {
        Some(rule) => Some(Refusal::Rule(rule)),
        None => None,
    }
}

/// The first of these that an item has.
fn first_fault(row_tables: &RowTables, row: &Prefix, items: &[BlockItem]) -> Option<Refusal>
    ensures { result ≡ first (flat_map (told_of_block (state_of row_tables.now) row.now) items.now) }
{
    'items: for item in items {
        if let Some(refusal) = fault_of(row_tables, row, item) {
            return Some(refusal);
        }
    }
    None
}

/// Why a claim can't be served whatever is free, if so: it has too many items, or one of them a fault.
pub fn claim_fault(row_tables: &RowTables, row: &Prefix, items: &[BlockItem]) -> Option<Refusal>
    ensures { result ≡ first (too_many Claims most_items (length items.now) ∷ flat_map (told_of_block (state_of row_tables.now) row.now) items.now) }
{
    match too_many_items(items.len()) {
        Some(refusal) => Some(refusal),
        None => first_fault(row_tables, row, items),
    }
}

/// The lengths of the items. `Err` means out of memory.
pub fn lengths(alloc: Global, items: &[BlockItem]) -> Result<Vec<u8>, AllocError>
    ensures { IfOk result (λ v. v.items ≡ lengths_of items.now) }
{
    let mut lengths = Vec::new(alloc);
    'items: for item in items {
        lengths.push(item.len)?;
    }
    Ok(lengths)
}

/// The prefix that an item gets, in the table of the prefix that it is claimed of. `Err` means out of memory.
fn claimed(row: &Prefix, id: u32, item: &BlockItem, block: Block) -> Result<View, AllocError>
    ensures { IfOk result (λ v. v ≡ PrefixView (claimed_prefix row.now id item.now block) 0 0) }
{
    let description = item.description.copy()?;
    Ok(View::Prefix {
        row: Prefix {
            id,
            block,
            vrf: row.vrf,
            status: item.status,
            role: item.role,
            is_pool: item.is_pool,
            mark_utilized: item.mark_utilized,
            description,
        },
        depth: 0,
        children: 0,
    })
}

/// The prefixes that the items get with these blocks, each under the next id. `Err` means out of memory.
pub fn claimed_views(
    alloc: Global,
    row: &Prefix,
    next: u32,
    items: &[BlockItem],
    blocks: &[Block],
) -> Result<Vec<View>, AllocError>
    requires each { length blocks.now ≡ length items.now }
    requires ids { next + length items.now < 2 ^ 32 }
    ensures { IfOk result (λ v. v.items ≡ map prefix_rules.view (claimed_prefixes row.now next items.now blocks.now)) }
{
    let mut views = Vec::new(alloc);
    'items: for index in 0..items.len() {
        let item = &items[index];
        let view = claimed(row, next + index as u32, item, blocks[index])?;
        views.push(view)?;
    }
    Ok(views)
}
