//! The bodies that record chosen numbers: one object, or a list of objects.

ghost use Rattle.std.specs.Prelude.{◌≡◌, IfOk, length, map};
ghost use Rattle.serde_json.specs.View.{view};
ghost use Rattle.ipam_json.specs.Claims.{HasItems, list_claim, one_claim};
ghost use Rattle.ipam_json.specs.Outcomes.{OrMemory};
ghost use Rattle.pool_json.specs.Bodies.{OrWant};
ghost use Rattle.pool_json.specs.Records.{IsRecord, as_data, chosen_by, chosen_in, chosen_item, chosen_name, number_name, recorded};

use crate::bodies::RequestRefusal;
use crate::claims::{check_list, read_value};
use crate::members::{asn_name, name, number};
use ipam_data::calls::Answered;
use ipam_data::replies::Refusal;
use number_pools::{Chosen, Listed, PoolKind};
use serde_json::Value;
use std::alloc::Global;
use stored_tables::tables::Text;

/// The member of an item that gives its number, and the parameter of a query.
pub fn number_name(kind: PoolKind) -> &'static str
    ensures { result.now ≡ number_name kind }
{
    match kind {
        PoolKind::Asn => "asn",
        PoolKind::Vlan => "vid",
    }
}

/// The name of a chosen number: a VLAN has one, and an AS number may have one.
fn chosen_name(alloc: Global, kind: PoolKind, body: &Value) -> Result<Text, Refusal>
    ensures { OrMemory (λ r. chosen_name kind (view body.now) ≡ r) result }
{
    match kind {
        PoolKind::Asn => asn_name(alloc, body),
        PoolKind::Vlan => name(alloc, body),
    }
}

/// What an object chooses.
fn chosen(alloc: Global, kind: PoolKind, body: &Value) -> Result<Chosen, RequestRefusal>
    ensures { OrWant (λ r. chosen_item kind (view body.now) ≡ r) result }
{
    let Some(number) = number(body, number_name(kind)) else {
        return Err(RequestRefusal::Number(kind));
    };
    match chosen_name(alloc, kind, body) {
        Ok(name) => Ok(Chosen { number, name }),
        Err(refusal) => Err(RequestRefusal::Common(refusal)),
    }
}

/// What objects choose, in their order.
fn chosen_in(
    alloc: Global,
    kind: PoolKind,
    list: &[Value],
) -> Result<Listed<Chosen>, RequestRefusal>
    ensures { OrWant (λ r. chosen_in kind (map view list.now) ≡ r) result }
{
    let mut items = Vec::new(alloc);
    for value in list {
        let item = match chosen(alloc, kind, value) {
            Ok(item) => item,
            Err(refusal) => return Err(refusal),
        };
        let Ok(()) = items.push(item) else {
            return Err(RequestRefusal::Common(Refusal::Memory));
        };
    }
    Ok(Listed::of(items))
}

/// Chosen numbers by a list of objects.
fn record_by_list(
    alloc: Global,
    kind: PoolKind,
    list: &[Value],
) -> Result<(Answered, Listed<Chosen>), RequestRefusal>
    ensures record_ { OrWant (λ r. recorded kind (list_claim as_data (map view list.now)) ≡ r) result }
    ensures items { IfOk result (λ r. HasItems r.0 (length r.1)) }
{
    match check_list(list) {
        Ok(()) => {}
        Err(refusal) => return Err(RequestRefusal::Common(refusal)),
    }
    match chosen_in(alloc, kind, list) {
        Ok(items) => Ok((Answered::AsList, items)),
        Err(refusal) => Err(refusal),
    }
}

/// A chosen number by one object.
fn record_by_one(
    alloc: Global,
    kind: PoolKind,
    body: &Value,
) -> Result<(Answered, Listed<Chosen>), RequestRefusal>
    ensures record_ { OrWant (λ r. recorded kind (one_claim as_data (view body.now)) ≡ r) result }
    ensures items { IfOk result (λ r. HasItems r.0 (length r.1)) }
{
    if !body.is_object() {
        return Err(RequestRefusal::Common(Refusal::BadJson));
    }
    let item = match chosen(alloc, kind, body) {
        Ok(item) => item,
        Err(refusal) => return Err(refusal),
    };
    let mut items = Vec::new(alloc);
    let Ok(()) = items.push(item) else {
        return Err(RequestRefusal::Common(Refusal::Memory));
    };
    Ok((Answered::AsOne, Listed::of(items)))
}

/// What the body of a call that records asks for: a number and a name for each item, and whether they are one object or a list.
/// `BadJson` is returned if the body is no JSON text (RFC 8259), or neither an object nor a list of objects; `Field` with `Body` if the list
/// is empty; then the first item is answered that is malformed: `Number` if its `asn` or `vid` is missing or malformed, else `Field` with
/// `Name`; and `Memory` may be returned in place of any answer.
pub fn read_record(
    alloc: Global,
    kind: PoolKind,
    body: &[u8],
) -> Result<(Answered, Listed<Chosen>), RequestRefusal>
    ensures record_ { OrWant (IsRecord kind body.now) result }
    ensures items { IfOk result (λ r. HasItems r.0 (length r.1)) }
{
    let value = match read_value(alloc, body) {
        Ok(value) => value,
        Err(refusal) => return Err(RequestRefusal::Common(refusal)),
    };
    match value.as_array() {
        Some(list) => record_by_list(alloc, kind, list.as_slice()),
        None => record_by_one(alloc, kind, &value),
    }
}
