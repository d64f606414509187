//! What calls lead to.

ghost use Rattle.std.specs.Prelude.{◌≡◌, ◌≤◌, Bool, Some, IfOk, IfErr, length, take};
ghost use Rattle.number_pools.specs.declared.calls.TheConstants.{MOST_CLAIMED as most_claimed};
ghost use Rattle.number_pools.specs.Claims.{IsClaimed, IsShort};
ghost use Rattle.number_pools.specs.Free.{free_numbers as free_numbers_of};
ghost use Rattle.number_pools.specs.Lawful.{IsInBounds, IsLawfulPools};
ghost use Rattle.number_pools.specs.Steps.{claim_step};
ghost use Rattle.pool_register.specs.Planned.{IsPlanned, IsPlannedAs};

use crate::checks::{
    add_refusal, cut_member_refusal, cut_range_refusal, has_member, has_range, member_limit,
    range_at, too_many,
};
use crate::edit::{plan_edit_member, plan_edit_range, read_member, read_range};
use crate::lists::{made_members, members_of, ranges_of};
use crate::numbers::{free_of, numbers_of};
use crate::pages::read_page;
use crate::planned::{Planned, Update};
use crate::record::plan_record;
use number_pools::{
    Listed, MOST_CLAIMED, NumberRange, PoolCall, PoolKind, PoolRefusal, PoolReply, Quantity, Short,
};
use pool_rows::PoolRows;
use std::alloc::{AllocError, Global};
use stored_tables::tables::{Text, Texts};

/// What it leads to that a range is to be made.
fn plan_add_range(
    rows: &PoolRows,
    kind: PoolKind,
    name: &Text,
    first: u32,
    last: u32,
) -> Result<Planned, AllocError>
    ensures { IfOk result (λ p. IsPlanned rows.now.pools (PoolCall.AddRange kind name.now first last) p) }
{
    match add_refusal(rows, kind, name, first, last) {
        Some(why) => Ok(Planned::Refused(why)),
        None => Ok(Planned::Change(Update::AddRange(NumberRange {
            id: rows.next_range(),
            kind,
            name: name.copy()?,
            first,
            last,
        }))),
    }
}

/// What it leads to that a range is to go.
fn plan_cut_range(rows: &PoolRows, kind: PoolKind, id: u32) -> Planned
    ensures { IsPlanned rows.now.pools (PoolCall.CutRange kind id) result }
{
    if !has_range(rows, kind, id) {
        return Planned::Refused(PoolRefusal::Absent(id));
    }
    match cut_range_refusal(rows, id) {
        Some(why) => Planned::Refused(why),
        None => Planned::Change(Update::CutRange(id)),
    }
}

/// What it leads to that a member is to go.
fn plan_cut_member(rows: &PoolRows, kind: PoolKind, id: u32) -> Planned
    ensures { IsPlanned rows.now.pools (PoolCall.CutMember kind id) result }
{
    if !has_member(rows, kind, id) {
        return Planned::Refused(PoolRefusal::Absent(id));
    }
    match cut_member_refusal(rows) {
        Some(why) => Planned::Refused(why),
        None => Planned::Change(Update::CutMember(id)),
    }
}

/// The ranges of a kind.
fn read_ranges(alloc: Global, rows: &PoolRows, kind: PoolKind) -> Result<Planned, AllocError>
    ensures { IfOk result (λ p. IsPlanned rows.now.pools (PoolCall.Ranges kind) p) }
{
    let found = ranges_of(alloc, rows.ranges(), kind)?;
    Ok(Planned::Read(PoolReply::Ranges(Listed::of(found))))
}

/// The members of a range.
fn read_members(
    alloc: Global,
    rows: &PoolRows,
    kind: PoolKind,
    id: u32,
) -> Result<Planned, AllocError>
    ensures { IfOk result (λ p. IsPlanned rows.now.pools (PoolCall.Members kind id) p) }
{
    if !has_range(rows, kind, id) {
        return Ok(Planned::Refused(PoolRefusal::Absent(id)));
    }
    let found = members_of(alloc, rows.members(), id)?;
    Ok(Planned::Read(PoolReply::Members(Listed::of(found))))
}

/// The least free numbers of a range.
fn read_free(
    alloc: Global,
    rows: &PoolRows,
    kind: PoolKind,
    id: u32,
    limit: u32,
) -> Result<Planned, AllocError>
    requires lawful { IsLawfulPools rows.now.pools }
    ensures { IfOk result (λ p. IsPlanned rows.now.pools (PoolCall.Available kind id limit) p) }
{
    let Some(range) = range_at(rows, kind, id) else {
        return Ok(Planned::Refused(PoolRefusal::Absent(id)));
    };
    let found = free_of(alloc, rows, range, limit)?;
    Ok(Planned::Read(PoolReply::Numbers(Listed::of(found))))
}

/// The members of a claim for which there are numbers, if no limit is against them.
fn plan_members(
    alloc: Global,
    rows: &PoolRows,
    range: &NumberRange,
    numbers: &[u32],
    names: &[Text],
) -> Result<Planned, AllocError>
    requires names { length names.now ≤ most_claimed }
    requires claimed { IsClaimed (length names.now) (free_numbers_of rows.now.pools range.now) numbers.now }
    ensures { IfOk result (IsPlannedAs rows.now.pools (claim_step rows.now.pools range.now.id names.now (Some range.now))) }
{
    let n = names.len() as u32;
    match member_limit(rows, n) {
        Some(why) => return Ok(Planned::Refused(why)),
        None => {}
    }
    let made = made_members(alloc, rows.next_member(), range.id, numbers, names)?;
    Ok(Planned::Change(Update::Claim(Listed::of(made))))
}

/// What a claim on an existing range leads to.
fn plan_claim_on(
    alloc: Global,
    rows: &PoolRows,
    range: &NumberRange,
    names: &[Text],
) -> Result<Planned, AllocError>
    requires lawful { IsLawfulPools rows.now.pools }
    requires bounds { IsInBounds range.now }
    ensures { IfOk result (IsPlannedAs rows.now.pools (claim_step rows.now.pools range.now.id names.now (Some range.now))) }
{
    match too_many(Quantity::Claims, MOST_CLAIMED, names.len() as u64) {
        Some(why) => return Ok(Planned::Refused(why)),
        None => {}
    }
    match numbers_of(alloc, rows, range, names.len() as u32) {
        Ok(numbers) => plan_members(alloc, rows, range, numbers.as_slice(), names),
        Err(Short::NoSpace(free)) => Ok(Planned::Refused(PoolRefusal::NoSpace(free))),
        Err(Short::Memory) => Err(AllocError),
    }
}

/// What a claim leads to.
fn plan_claim_in(
    alloc: Global,
    rows: &PoolRows,
    kind: PoolKind,
    id: u32,
    names: &Texts,
) -> Result<Planned, AllocError>
    requires lawful { IsLawfulPools rows.now.pools }
    ensures { (list : Bool) → IfOk result (λ p. IsPlanned rows.now.pools (PoolCall.Claim kind id list names.now) p) }
{
    let Some(range) = range_at(rows, kind, id) else {
        return Ok(Planned::Refused(PoolRefusal::Absent(id)));
    };
    plan_claim_on(alloc, rows, range, names.as_slice())
}

/// What a call leads to. `Err` means out of memory.
pub fn plan(alloc: Global, rows: &PoolRows, call: &PoolCall) -> Result<Planned, AllocError>
    requires lawful { IsLawfulPools rows.now.pools }
    ensures { IfOk result (λ p. IsPlanned rows.now.pools call.now p) }
{
    match call {
        PoolCall::AddRange {
            kind,
            name,
            first,
            last,
        } => plan_add_range(rows, *kind, name, *first, *last),
        PoolCall::CutRange { kind, id } => Ok(plan_cut_range(rows, *kind, *id)),
        PoolCall::Ranges { kind } => read_ranges(alloc, rows, *kind),
        PoolCall::Members { kind, id } => read_members(alloc, rows, *kind, *id),
        PoolCall::CutMember { kind, id } => Ok(plan_cut_member(rows, *kind, *id)),
        PoolCall::Available { kind, id, limit } => read_free(alloc, rows, *kind, *id, *limit),
        PoolCall::Claim {
            kind,
            id,
            list: _,
            names,
        } => plan_claim_in(alloc, rows, *kind, *id, names),
        PoolCall::Record {
            kind,
            id,
            list: _,
            items,
        } => plan_record(alloc, rows, *kind, *id, items),
        PoolCall::OneRange { kind, id } => read_range(rows, *kind, *id),
        PoolCall::OneMember { kind, id } => read_member(rows, *kind, *id),
        PoolCall::EditRange {
            kind,
            id,
            name,
            first,
            last,
        } => plan_edit_range(rows, *kind, *id, name, *first, *last),
        PoolCall::EditMember { kind, id, name } => plan_edit_member(rows, *kind, *id, name),
        PoolCall::Page { kind, query } => read_page(alloc, rows, *kind, query),
    }
}
