//! The bodies of edits: what is to be another, and what stays.

ghost use Rattle.std.specs.Prelude.{◌≡◌};
ghost use Rattle.serde_json.specs.View.{view};
ghost use Rattle.ipam_json.specs.Outcomes.{OrMemory};
ghost use Rattle.pool_json.specs.Bodies.{OrWant};
ghost use Rattle.pool_json.specs.Edits.{IsMemberEdit, IsRangeEdit, member_edit, member_name, range_edit};

use crate::bodies::{RequestRefusal, read_object};
use crate::members::{given_asn_name, given_name, given_number};
use ipam_data::replies::Refusal;
use number_pools::PoolKind;
use serde_json::Value;
use std::alloc::Global;
use stored_tables::tables::Text;

/// What a body gives a range: what it does not name stays. Whether the numbers fit is a rule of the pools.
#[derive(Debug, Drop)]
pub struct RangeEdit {
    pub name: Option<Text>,
    pub first: Option<u32>,
    pub last: Option<u32>,
}

/// The edit of a range that an object asks for.
fn range_edit(alloc: Global, object: &Value) -> Result<RangeEdit, RequestRefusal>
    ensures { OrWant (λ r. range_edit (view object.now) ≡ r) result }
{
    let name = match given_name(alloc, object) {
        Ok(name) => name,
        Err(refusal) => return Err(RequestRefusal::Common(refusal)),
    };
    let first = match given_number(object, "start", RequestRefusal::Start) {
        Ok(first) => first,
        Err(refusal) => return Err(refusal),
    };
    let last = match given_number(object, "end", RequestRefusal::End) {
        Ok(last) => last,
        Err(refusal) => return Err(refusal),
    };
    Ok(RangeEdit { name, first, last })
}

/// What the body of an edit of a range asks for. `BadJson` is returned if the body is no JSON text (RFC 8259) or no object; then the first
/// of `name`, `start` and `end` that is there and malformed is answered; and `Memory` may be returned in place of any answer.
pub fn read_range_edit(alloc: Global, body: &[u8]) -> Result<RangeEdit, RequestRefusal>
    ensures { OrWant (IsRangeEdit body.now) result }
{
    match read_object(alloc, body) {
        Ok(object) => range_edit(alloc, &object),
        Err(refusal) => Err(RequestRefusal::Common(refusal)),
    }
}

/// The name that an object gives a member, if it gives one.
fn member_name(alloc: Global, kind: PoolKind, object: &Value) -> Result<Option<Text>, Refusal>
    ensures { OrMemory (λ r. member_name kind (view object.now) ≡ r) result }
{
    match kind {
        PoolKind::Asn => given_asn_name(alloc, object),
        PoolKind::Vlan => given_name(alloc, object),
    }
}

/// The edit of a member that an object asks for.
fn member_edit(
    alloc: Global,
    kind: PoolKind,
    object: &Value,
) -> Result<Option<Text>, RequestRefusal>
    ensures { OrWant (λ r. member_edit kind (view object.now) ≡ r) result }
{
    match member_name(alloc, kind, object) {
        Ok(name) => Ok(name),
        Err(refusal) => Err(RequestRefusal::Common(refusal)),
    }
}

/// What the body of an edit of a member asks for: the name that it gives, if it gives one. `BadJson` is returned if the body is no JSON text
/// (RFC 8259) or no object; `Field` with `Name` if there is a name that is malformed; and `Memory` may be returned in place of any answer.
pub fn read_member_edit(
    alloc: Global,
    kind: PoolKind,
    body: &[u8],
) -> Result<Option<Text>, RequestRefusal>
    ensures { OrWant (IsMemberEdit kind body.now) result }
{
    match read_object(alloc, body) {
        Ok(object) => member_edit(alloc, kind, &object),
        Err(refusal) => Err(RequestRefusal::Common(refusal)),
    }
}
