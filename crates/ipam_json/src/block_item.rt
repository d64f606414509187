//! Claims of blocks in JSON.

ghost use Rattle.std.specs.Prelude.{◌≡◌, IfOk, length, map};
ghost use Rattle.serde_json.specs.View.{view};
ghost use Rattle.ipam_json.specs.Outcomes.{OrMemory};
ghost use Rattle.ipam_json.specs.Claims.{HasItems, claim_by, items_in, list_claim, one_claim};
ghost use Rattle.ipam_json.specs.BlockItems.{IsBlockClaim};
ghost use Rattle.ipam_json.specs.BlockItems as spec;

use crate::choices::prefix_status;
use crate::claims::{check_list, read_value};
use crate::members::{description, flag};
use crate::numbers::{id, prefix_length};
use ipam_data::calls::{Answered, BlockItem, BlockItems};
use ipam_data::replies::{FieldName, Refusal};
use serde_json::Value;
use std::alloc::Global;

/// The item of a claim of blocks that an object gives.
fn block_item(alloc: Global, body: &Value) -> Result<BlockItem, Refusal>
    ensures { OrMemory (λ r. spec.block_item (view body.now) ≡ r) result }
{
    let len = prefix_length(body)?;
    let status = prefix_status(body)?;
    let role = id(body, FieldName::Role)?;
    let is_pool = flag(body, FieldName::IsPool, false)?;
    let mark_utilized = flag(body, FieldName::MarkUtilized, false)?;
    let description = description(alloc, body)?;
    Ok(BlockItem {
        len,
        status,
        role,
        is_pool,
        mark_utilized,
        description,
    })
}

/// The items that objects give, in their order.
fn block_items(alloc: Global, list: &[Value]) -> Result<BlockItems, Refusal>
    ensures { OrMemory (λ r. items_in spec.block_item (map view list.now) ≡ r) result }
{
    let mut items = Vec::new(alloc);
    for value in list {
        let item = block_item(alloc, value)?;
        let Ok(()) = items.push(item) else {
            return Err(Refusal::Memory);
        };
    }
    Ok(BlockItems::of(items))
}

/// A claim by a list of objects.
fn claim_by_list(alloc: Global, list: &[Value]) -> Result<(Answered, BlockItems), Refusal>
    ensures claim { OrMemory (λ r. list_claim spec.block_item (map view list.now) ≡ r) result }
    ensures items { IfOk result (λ claim. HasItems claim.0 (length claim.1)) }
{
    check_list(list)?;
    let items = block_items(alloc, list)?;
    Ok((Answered::AsList, items))
}

/// A claim by one object.
fn claim_by_one(alloc: Global, body: &Value) -> Result<(Answered, BlockItems), Refusal>
    ensures claim { OrMemory (λ r. one_claim spec.block_item (view body.now) ≡ r) result }
    ensures items { IfOk result (λ claim. HasItems claim.0 (length claim.1)) }
{
    if !body.is_object() {
        return Err(Refusal::BadJson);
    }
    let item = block_item(alloc, body)?;
    let mut items = Vec::new(alloc);
    let Ok(()) = items.push(item) else {
        return Err(Refusal::Memory);
    };
    Ok((Answered::AsOne, BlockItems::of(items)))
}

/// What the body of a claim of blocks asks for: its items in order, and whether it was given as one object or as a list. `BadJson` is returned if the body is
/// no JSON text (RFC 8259), or neither an object nor a list of objects; `Field` with `Body` if the list is empty; `Field` with the first member that is
/// malformed, or required and absent, item by item, in the order `prefix_length`, `status`, `role`, `is_pool`, `mark_utilized`, `description` of an item; and
/// `Memory` may be returned in place of any answer.
pub fn read_block_claim(alloc: Global, body: &[u8]) -> Result<(Answered, BlockItems), Refusal>
    ensures claim { OrMemory (IsBlockClaim body.now) result }
    ensures items { IfOk result (λ claim. HasItems claim.0 (length claim.1)) }
{
    let value = read_value(alloc, body)?;
    match value.as_array() {
        Some(list) => claim_by_list(alloc, list.as_slice()),
        None => claim_by_one(alloc, &value),
    }
}
