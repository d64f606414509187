//! Claims of addresses in JSON.

ghost use Rattle.std.specs.Prelude.{◌≡◌, IfOk, length, map};
ghost use Rattle.serde_json.specs.View.{view};
ghost use Rattle.ipam_json.specs.Outcomes.{OrMemory};
ghost use Rattle.ipam_json.specs.Claims.{HasItems, claim_by, items_in, list_claim, one_claim};
ghost use Rattle.ipam_json.specs.AddrItems.{IsAddrClaim};
ghost use Rattle.ipam_json.specs.AddrItems as spec;

use crate::choices::{address_role, address_status};
use crate::claims::{check_list, read_value};
use crate::members::{description, dns_name};
use ipam_data::calls::{AddrItem, AddrItems, Answered};
use ipam_data::replies::Refusal;
use serde_json::Value;
use std::alloc::Global;

/// The item of a claim of addresses that an object gives.
fn addr_item(alloc: Global, body: &Value) -> Result<AddrItem, Refusal>
    ensures { OrMemory (λ r. spec.addr_item (view body.now) ≡ r) result }
{
    let status = address_status(body)?;
    let role = address_role(body)?;
    let dns_name = dns_name(alloc, body)?;
    let description = description(alloc, body)?;
    Ok(AddrItem {
        status,
        role,
        dns_name,
        description,
    })
}

/// The items that objects give, in their order.
fn addr_items(alloc: Global, list: &[Value]) -> Result<AddrItems, Refusal>
    ensures { OrMemory (λ r. items_in spec.addr_item (map view list.now) ≡ r) result }
{
    let mut items = Vec::new(alloc);
    for value in list {
        let item = addr_item(alloc, value)?;
        let Ok(()) = items.push(item) else {
            return Err(Refusal::Memory);
        };
    }
    Ok(AddrItems::of(items))
}

/// A claim by a list of objects.
fn claim_by_list(alloc: Global, list: &[Value]) -> Result<(Answered, AddrItems), Refusal>
    ensures claim { OrMemory (λ r. list_claim spec.addr_item (map view list.now) ≡ r) result }
    ensures items { IfOk result (λ claim. HasItems claim.0 (length claim.1)) }
{
    check_list(list)?;
    let items = addr_items(alloc, list)?;
    Ok((Answered::AsList, items))
}

/// A claim by one object.
fn claim_by_one(alloc: Global, body: &Value) -> Result<(Answered, AddrItems), Refusal>
    ensures claim { OrMemory (λ r. one_claim spec.addr_item (view body.now) ≡ r) result }
    ensures items { IfOk result (λ claim. HasItems claim.0 (length claim.1)) }
{
    if !body.is_object() {
        return Err(Refusal::BadJson);
    }
    let item = addr_item(alloc, body)?;
    let mut items = Vec::new(alloc);
    let Ok(()) = items.push(item) else {
        return Err(Refusal::Memory);
    };
    Ok((Answered::AsOne, AddrItems::of(items)))
}

/// What the body of a claim of addresses asks for: its items in order, and whether it was given as one object or as a list. `BadJson` is
/// returned if the body is no JSON text (RFC 8259), or neither an object nor a list of objects; `Field` with `Body` if the list is
/// empty; `Field` with the first member that is malformed, or required and absent, item by item, in the order `status`, `role`, `dns_name`, `description`
/// of an item; and `Memory` may be returned in place of any answer.
pub fn read_addr_claim(alloc: Global, body: &[u8]) -> Result<(Answered, AddrItems), Refusal>
    ensures claim { OrMemory (IsAddrClaim body.now) result }
    ensures items { IfOk result (λ claim. HasItems claim.0 (length claim.1)) }
{
    let value = read_value(alloc, body)?;
    match value.as_array() {
        Some(list) => claim_by_list(alloc, list.as_slice()),
        None => claim_by_one(alloc, &value),
    }
}
