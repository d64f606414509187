//! The call that a request asks for.

ghost use Rattle.std.specs.Prelude.{◌≡◌, IfOk, false};
ghost use Rattle.number_pools.specs.Machines.{IsTaken};
ghost use Rattle.pool_json.specs.Bodies.{OrWant};
ghost use Rattle.pool_rest.specs.Requests.{IsClaimAsked, IsEditAsked, IsFreeAsked, IsFreeListed, IsGivenAsked, IsManyAsked, IsMembersAsked, IsOneAsked, IsPartAsked, IsRangeAsked, IsRangesAsked, IsRecordAsked, IsRequest};
ghost use Rattle.pool_rest.specs.Requests as spec;

use crate::listing::read_query;
use crate::route::{Base, Method, RangePart, Route};
use crate::table::Routes;
use ipam_data::calls::Answered;
use ipam_data::replies::Refusal;
use number_pools::{PoolCall, PoolKind};
use pool_json::{
    RequestRefusal, Shape, read_claim, read_member_edit, read_range, read_range_edit, read_record,
};
use rest_query::{Available, cut, read_limit};
use std::alloc::Global;

/// A reply for a kind to a call without items.
fn plain(kind: PoolKind) -> Shape
    ensures { result ≡ record { kind = kind; list = false } }
{
    Shape { kind, list: false }
}

/// How the reply to a call is written.
pub fn shape_of(call: &PoolCall) -> Shape
    ensures { result ≡ spec.shape_of call.now }
{
    match call {
        PoolCall::AddRange { kind, .. } => plain(*kind),
        PoolCall::CutRange { kind, .. } => plain(*kind),
        PoolCall::Ranges { kind } => plain(*kind),
        PoolCall::Members { kind, .. } => plain(*kind),
        PoolCall::CutMember { kind, .. } => plain(*kind),
        PoolCall::Available { kind, .. } => plain(*kind),
        PoolCall::Claim { kind, list, .. } => Shape {
            kind: *kind,
            list: *list,
        },
        PoolCall::Record { kind, list, .. } => Shape {
            kind: *kind,
            list: *list,
        },
        PoolCall::OneRange { kind, .. } => plain(*kind),
        PoolCall::OneMember { kind, .. } => plain(*kind),
        PoolCall::EditRange { kind, .. } => plain(*kind),
        PoolCall::EditMember { kind, .. } => plain(*kind),
        PoolCall::Page { kind, .. } => plain(*kind),
    }
}

/// A call, with how its reply is written.
fn asks(call: PoolCall) -> (PoolCall, Shape)
    ensures { result ≡ (call, spec.shape_of call) }
{
    let shape = shape_of(&call);
    (call, shape)
}

/// The refusal of a method that a route does not have.
fn no_method() -> RequestRefusal
    ensures { result ≡ RequestRefusal.Common Refusal.Method }
{
    RequestRefusal::Common(Refusal::Method)
}

/// The call for a new range.
fn call_of_draft(
    alloc: Global,
    kind: PoolKind,
    body: &[u8],
) -> Result<(PoolCall, Shape), RequestRefusal>
    ensures asked { OrWant (IsRangeAsked kind body.now) result }
    ensures taken { IfOk result (λ asked. IsTaken asked.0) }
{
    match read_range(alloc, body) {
        Ok(draft) => Ok(asks(PoolCall::AddRange {
            kind,
            name: draft.name,
            first: draft.first,
            last: draft.last,
        })),
        Err(refusal) => Err(refusal),
    }
}

/// What a method asks of the ranges of a kind.
fn call_of_ranges(
    alloc: Global,
    kind: PoolKind,
    method: Option<Method>,
    body: &[u8],
) -> Result<(PoolCall, Shape), RequestRefusal>
    ensures asked { OrWant (IsRangesAsked kind method body.now) result }
    ensures taken { IfOk result (λ asked. IsTaken asked.0) }
{
    match method {
        Some(Method::Get) => Ok(asks(PoolCall::Ranges { kind })),
        Some(Method::Post) => call_of_draft(alloc, kind, body),
        Some(Method::Patch) => Err(no_method()),
        Some(Method::Delete) => Err(no_method()),
        None => Err(no_method()),
    }
}

/// What a method asks of the members of a kind.
fn call_of_members(
    alloc: Global,
    kind: PoolKind,
    method: Option<Method>,
    query: &[u8],
) -> Result<(PoolCall, Shape), RequestRefusal>
    ensures asked { OrWant (IsMembersAsked kind method query.now) result }
    ensures taken { IfOk result (λ asked. IsTaken asked.0) }
{
    match method {
        Some(Method::Get) => match read_query(alloc, kind, query) {
            Ok(query) => Ok(asks(PoolCall::Page { kind, query })),
            Err(refusal) => Err(refusal),
        },
        Some(Method::Post) => Err(no_method()),
        Some(Method::Patch) => Err(no_method()),
        Some(Method::Delete) => Err(no_method()),
        None => Err(no_method()),
    }
}

/// What a method asks of all ranges of a kind, or of all members.
fn call_of_many(
    alloc: Global,
    base: Base,
    method: Option<Method>,
    query: &[u8],
    body: &[u8],
) -> Result<(PoolCall, Shape), RequestRefusal>
    ensures asked { OrWant (IsManyAsked base method query.now body.now) result }
    ensures taken { IfOk result (λ asked. IsTaken asked.0) }
{
    match base {
        Base::Ranges(kind) => call_of_ranges(alloc, kind, method, body),
        Base::Members(kind) => call_of_members(alloc, kind, method, query),
    }
}

/// The call that cuts a range or a member.
fn cut_call(base: Base, id: u32) -> PoolCall
    ensures is { result ≡ spec.cut_call base id }
    ensures taken { IsTaken result }
{
    match base {
        Base::Ranges(kind) => PoolCall::CutRange { kind, id },
        Base::Members(kind) => PoolCall::CutMember { kind, id },
    }
}

/// The call that reads a range or a member.
fn one_call(base: Base, id: u32) -> PoolCall
    ensures is { result ≡ spec.one_call base id }
    ensures taken { IsTaken result }
{
    match base {
        Base::Ranges(kind) => PoolCall::OneRange { kind, id },
        Base::Members(kind) => PoolCall::OneMember { kind, id },
    }
}

/// The edit of a range that a body asks for.
fn call_of_range_edit(
    alloc: Global,
    kind: PoolKind,
    id: u32,
    body: &[u8],
) -> Result<(PoolCall, Shape), RequestRefusal>
    ensures asked { OrWant (IsEditAsked (Base.Ranges kind) id body.now) result }
    ensures taken { IfOk result (λ asked. IsTaken asked.0) }
{
    match read_range_edit(alloc, body) {
        Ok(edit) => Ok(asks(PoolCall::EditRange {
            kind,
            id,
            name: edit.name,
            first: edit.first,
            last: edit.last,
        })),
        Err(refusal) => Err(refusal),
    }
}

/// The edit of a member that a body asks for.
fn call_of_member_edit(
    alloc: Global,
    kind: PoolKind,
    id: u32,
    body: &[u8],
) -> Result<(PoolCall, Shape), RequestRefusal>
    ensures asked { OrWant (IsEditAsked (Base.Members kind) id body.now) result }
    ensures taken { IfOk result (λ asked. IsTaken asked.0) }
{
    match read_member_edit(alloc, kind, body) {
        Ok(name) => Ok(asks(PoolCall::EditMember { kind, id, name })),
        Err(refusal) => Err(refusal),
    }
}

/// The edit that a body asks for.
fn call_of_edit(
    alloc: Global,
    base: Base,
    id: u32,
    body: &[u8],
) -> Result<(PoolCall, Shape), RequestRefusal>
    ensures asked { OrWant (IsEditAsked base id body.now) result }
    ensures taken { IfOk result (λ asked. IsTaken asked.0) }
{
    match base {
        Base::Ranges(kind) => call_of_range_edit(alloc, kind, id, body),
        Base::Members(kind) => call_of_member_edit(alloc, kind, id, body),
    }
}

/// What a method asks of a range or a member.
fn call_of_one(
    alloc: Global,
    base: Base,
    id: u32,
    method: Option<Method>,
    body: &[u8],
) -> Result<(PoolCall, Shape), RequestRefusal>
    ensures asked { OrWant (IsOneAsked base id method body.now) result }
    ensures taken { IfOk result (λ asked. IsTaken asked.0) }
{
    match method {
        Some(Method::Get) => Ok(asks(one_call(base, id))),
        Some(Method::Post) => Err(no_method()),
        Some(Method::Patch) => call_of_edit(alloc, base, id, body),
        Some(Method::Delete) => Ok(asks(cut_call(base, id))),
        None => Err(no_method()),
    }
}

/// The list of free numbers that a query asks for.
fn call_of_limit(
    alloc: Global,
    kind: PoolKind,
    id: u32,
    query: &[u8],
) -> Result<(PoolCall, Shape), RequestRefusal>
    ensures asked { OrWant (IsFreeListed kind id query.now) result }
    ensures taken { IfOk result (λ asked. IsTaken asked.0) }
{
    match read_limit(alloc, Available::Addrs, query) {
        Ok(limit) => Ok(asks(PoolCall::Available { kind, id, limit })),
        Err(refusal) => Err(RequestRefusal::Common(refusal)),
    }
}

/// Whether items were given as a list.
fn is_list(answered: Answered) -> bool
    ensures { result ≡ spec.is_list answered }
{
    match answered {
        Answered::AsOne => false,
        Answered::AsList => true,
    }
}

/// The claim that a body asks for.
fn call_of_claim(
    alloc: Global,
    kind: PoolKind,
    id: u32,
    body: &[u8],
) -> Result<(PoolCall, Shape), RequestRefusal>
    ensures asked { OrWant (IsClaimAsked kind id body.now) result }
    ensures taken { IfOk result (λ asked. IsTaken asked.0) }
{
    match read_claim(alloc, kind, body) {
        Ok((answered, names)) => Ok(asks(PoolCall::Claim {
            kind,
            id,
            list: is_list(answered),
            names,
        })),
        Err(refusal) => Err(RequestRefusal::Common(refusal)),
    }
}

/// What a method asks of the free numbers of a range.
fn call_of_free(
    alloc: Global,
    kind: PoolKind,
    id: u32,
    method: Option<Method>,
    query: &[u8],
    body: &[u8],
) -> Result<(PoolCall, Shape), RequestRefusal>
    ensures asked { OrWant (IsFreeAsked kind id method query.now body.now) result }
    ensures taken { IfOk result (λ asked. IsTaken asked.0) }
{
    match method {
        Some(Method::Get) => call_of_limit(alloc, kind, id, query),
        Some(Method::Post) => call_of_claim(alloc, kind, id, body),
        Some(Method::Patch) => Err(no_method()),
        Some(Method::Delete) => Err(no_method()),
        None => Err(no_method()),
    }
}

/// The call that records the numbers that a body chooses.
fn call_of_record(
    alloc: Global,
    kind: PoolKind,
    id: u32,
    body: &[u8],
) -> Result<(PoolCall, Shape), RequestRefusal>
    ensures asked { OrWant (IsRecordAsked kind id body.now) result }
    ensures taken { IfOk result (λ asked. IsTaken asked.0) }
{
    match read_record(alloc, kind, body) {
        Ok((answered, items)) => Ok(asks(PoolCall::Record {
            kind,
            id,
            list: is_list(answered),
            items,
        })),
        Err(refusal) => Err(refusal),
    }
}

/// What a method asks of the members of a range.
fn call_of_given(
    alloc: Global,
    kind: PoolKind,
    id: u32,
    method: Option<Method>,
    body: &[u8],
) -> Result<(PoolCall, Shape), RequestRefusal>
    ensures asked { OrWant (IsGivenAsked kind id method body.now) result }
    ensures taken { IfOk result (λ asked. IsTaken asked.0) }
{
    match method {
        Some(Method::Get) => Ok(asks(PoolCall::Members { kind, id })),
        Some(Method::Post) => call_of_record(alloc, kind, id, body),
        Some(Method::Patch) => Err(no_method()),
        Some(Method::Delete) => Err(no_method()),
        None => Err(no_method()),
    }
}

/// What a method asks of a part of a range.
fn call_of_part(
    alloc: Global,
    part: RangePart,
    kind: PoolKind,
    id: u32,
    method: Option<Method>,
    query: &[u8],
    body: &[u8],
) -> Result<(PoolCall, Shape), RequestRefusal>
    ensures asked { OrWant (IsPartAsked part kind id method query.now body.now) result }
    ensures taken { IfOk result (λ asked. IsTaken asked.0) }
{
    match part {
        RangePart::Free => call_of_free(alloc, kind, id, method, query, body),
        RangePart::Given => call_of_given(alloc, kind, id, method, body),
    }
}

/// What a request asks of the pools, by a table of the routes that is lent, with how its reply is written. `NoRoute` is returned if the
/// path has no route, then `Method` if the route does not have the method, and then the refusals of a body, or for a list of free
/// numbers that of its limit, or for a page of members that of its query; `Memory` may be returned in place of any answer. The body of a GET or a DELETE is ignored.
pub fn read_call_by(
    alloc: Global,
    routes: &Routes,
    method: &[u8],
    target: &[u8],
    body: &[u8],
) -> Result<(PoolCall, Shape), RequestRefusal>
    ensures request { OrWant (IsRequest method.now target.now body.now) result }
    ensures taken { IfOk result (λ asked. IsTaken asked.0) }
{
    let (path, query) = cut(target);
    match routes.route_of(path) {
        None => Err(RequestRefusal::Common(Refusal::NoRoute)),
        Some(Route::Many(base)) => call_of_many(alloc, base, Method::named(method), query, body),
        Some(Route::Single(base, id)) => call_of_one(alloc, base, id, Method::named(method), body),
        Some(Route::Within(part, kind, id)) => {
            call_of_part(alloc, part, kind, id, Method::named(method), query, body)
        }
    }
}
