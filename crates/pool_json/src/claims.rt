//! The bodies of claims: one object, or a list of objects.

ghost use Rattle.std.specs.Prelude.{◌≡◌, ◌⊎◌, [], IfOk, IfErr, length, map};
ghost use Rattle.std.specs.List.{list_all};
ghost use Rattle.serde_json.specs.View.{view};
ghost use Rattle.ipam_data.specs.declared.replies.Refusal.TheVariants.{BadJson, Memory};
ghost use Rattle.ipam_json.specs.Claims.{HasItems, IsJsonText, IsNoJsonText, is_object, items_in, list_checked, list_claim, one_claim};
ghost use Rattle.ipam_json.specs.Outcomes.{OrMemory};
ghost use Rattle.pool_json.specs.Bodies.{IsClaim, claim_item};

use crate::members::name;
use ipam_data::calls::Answered;
use ipam_data::replies::{FieldName, Refusal};
use number_pools::PoolKind;
use serde_json::Value;
use std::alloc::Global;
use stored_tables::tables::{Text, Texts};

/// The JSON value that a body is.
pub(crate) fn read_value(alloc: Global, body: &[u8]) -> Result<Value, Refusal>
    ensures ok { IfOk result (λ v. IsJsonText body.now (view v)) }
    ensures err { IfErr result (λ e. (e ≡ Memory) ⊎ (IsNoJsonText body.now × (e ≡ BadJson))) }
{
    match Value::from_slice(alloc, body) {
        Ok(value) => Ok(value),
        Err(error) if error.is_memory() => Err(Refusal::Memory),
        Err(_) => Err(Refusal::BadJson),
    }
}

/// Whether all of these are objects.
fn are_objects(list: &[Value]) -> bool
    ensures { result ≡ list_all (λ value. is_object (view value)) list.now }
{
    list.iter().all(|value| value.is_object())
}

/// Sees that a list has objects alone, and one at least.
pub(crate) fn check_list(list: &[Value]) -> Result<(), Refusal>
    ensures { list_checked (map view list.now) ≡ result }
{
    if list.is_empty() {
        return Err(Refusal::Field(FieldName::Body));
    }
    if are_objects(list) {
        return Ok(());
    }
    Err(Refusal::BadJson)
}

/// The name of an ASN: it has none.
fn no_name(alloc: Global) -> Result<Text, Refusal>
    ensures ok { IfOk result (λ t. t ≡ []) }
    ensures err { IfErr result (λ e. e ≡ Memory) }
{
    match String::from_str(alloc, "") {
        Ok(text) => Ok(Text::of(text)),
        Err(_) => Err(Refusal::Memory),
    }
}

/// The name that an object of a claim gives.
fn item(alloc: Global, kind: PoolKind, body: &Value) -> Result<Text, Refusal>
    ensures { OrMemory (λ r. claim_item kind (view body.now) ≡ r) result }
{
    match kind {
        PoolKind::Asn => no_name(alloc),
        PoolKind::Vlan => name(alloc, body),
    }
}

/// The names that objects give, in their order.
fn items(alloc: Global, kind: PoolKind, list: &[Value]) -> Result<Texts, Refusal>
    ensures { OrMemory (λ r. items_in (claim_item kind) (map view list.now) ≡ r) result }
{
    let mut items = Vec::new(alloc);
    for value in list {
        let item = item(alloc, kind, value)?;
        let Ok(()) = items.push(item) else {
            return Err(Refusal::Memory);
        };
    }
    Ok(Texts::of(items))
}

/// A claim by a list of objects.
fn claim_by_list(
    alloc: Global,
    kind: PoolKind,
    list: &[Value],
) -> Result<(Answered, Texts), Refusal>
    ensures claim { OrMemory (λ r. list_claim (claim_item kind) (map view list.now) ≡ r) result }
    ensures items { IfOk result (λ claim. HasItems claim.0 (length claim.1)) }
{
    check_list(list)?;
    let items = items(alloc, kind, list)?;
    Ok((Answered::AsList, items))
}

/// A claim by one object.
fn claim_by_one(alloc: Global, kind: PoolKind, body: &Value) -> Result<(Answered, Texts), Refusal>
    ensures claim { OrMemory (λ r. one_claim (claim_item kind) (view body.now) ≡ r) result }
    ensures items { IfOk result (λ claim. HasItems claim.0 (length claim.1)) }
{
    if !body.is_object() {
        return Err(Refusal::BadJson);
    }
    let item = item(alloc, kind, body)?;
    let mut items = Vec::new(alloc);
    let Ok(()) = items.push(item) else {
        return Err(Refusal::Memory);
    };
    Ok((Answered::AsOne, Texts::of(items)))
}

/// What the body of a claim asks for: a name for each number, and whether it was given as one object or as a list. `BadJson` is returned if the
/// body is no JSON text (RFC 8259), or neither an object nor a list of objects; `Field` with `Body` if the list is empty; `Field`
/// with `Name` if an object of a claim of VLANs has no name that is one; and `Memory` may be returned in place of any answer.
pub fn read_claim(alloc: Global, kind: PoolKind, body: &[u8]) -> Result<(Answered, Texts), Refusal>
    ensures claim { OrMemory (IsClaim kind body.now) result }
    ensures items { IfOk result (λ claim. HasItems claim.0 (length claim.1)) }
{
    let value = read_value(alloc, body)?;
    match value.as_array() {
        Some(list) => claim_by_list(alloc, kind, list.as_slice()),
        None => claim_by_one(alloc, kind, &value),
    }
}
