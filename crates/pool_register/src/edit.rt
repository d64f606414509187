//! What it leads to that a range or a member is to be another, and what is read of one.

ghost use Rattle.std.specs.Prelude.{◌≡◌, IfOk, find, option_copied};
ghost use Rattle.ipam_data.specs.Checks.{first as first_of};
ghost use Rattle.ipam_data.specs.Plans.{edited};
ghost use Rattle.ipam_data.specs.RowList.{is_rival};
ghost use Rattle.number_pools.specs.Rows.{range_id};
ghost use Rattle.number_pools.specs.Steps.{edit_member_checks, edit_range_checks, edited_member, edited_member_step, edited_range, edited_range_step, has_one_name, is_cut_off, is_name_of_other, is_too_small};
ghost use Rattle.pool_rows.specs.Held.{KeepsItsKind, KeepsItsNumber};
ghost use Rattle.pool_register.specs.Planned.{IsPlanned, IsPlannedAs};

use crate::checks::{member_at, out_of_bounds, range_at, too_many};
use crate::planned::{Planned, Update};
use ipam_data::kinds::MOST_SPENT;
use number_pools::{Member, NumberRange, PoolCall, PoolKind, PoolRefusal, PoolReply, Quantity};
use pool_opening::has_name;
use pool_rows::PoolRows;
use std::alloc::AllocError;
use stored_tables::tables::Text;

// ---- reads

/// The range of a kind with this id.
pub(crate) fn read_range(rows: &PoolRows, kind: PoolKind, id: u32) -> Result<Planned, AllocError>
    ensures { IfOk result (λ p. IsPlanned rows.now.pools (PoolCall.OneRange kind id) p) }
{
    match range_at(rows, kind, id) {
        Some(range) => Ok(Planned::Read(PoolReply::OneRange(range.copy()?))),
        None => Ok(Planned::Refused(PoolRefusal::Absent(id))),
    }
}

/// The member with this id, of a range of a kind.
pub(crate) fn read_member(rows: &PoolRows, kind: PoolKind, id: u32) -> Result<Planned, AllocError>
    ensures { IfOk result (λ p. IsPlanned rows.now.pools (PoolCall.OneMember kind id) p) }
{
    match member_at(rows, kind, id) {
        Some(member) => Ok(Planned::Read(PoolReply::OneMember(member.copy()?))),
        None => Ok(Planned::Refused(PoolRefusal::Absent(id))),
    }
}

// ---- the rows as they are to be

/// The name that is given, or else the old one.
fn edited_name(old: &Text, name: &Option<Text>) -> Result<Text, AllocError>
    ensures { IfOk result (λ t. t ≡ edited name.now old.now) }
{
    match name {
        Some(name) => name.copy(),
        None => old.copy(),
    }
}

/// The number that is given, or else the old one.
fn edited_number(old: u32, number: Option<u32>) -> u32
    ensures { result ≡ edited number old }
{
    match number {
        Some(number) => number,
        None => old,
    }
}

/// The range with what is given.
fn edited_range(
    range: &NumberRange,
    name: &Option<Text>,
    first: Option<u32>,
    last: Option<u32>,
) -> Result<NumberRange, AllocError>
    ensures { IfOk result (λ r. r ≡ edited_range range.now name.now first last) }
{
    Ok(NumberRange {
        id: range.id,
        kind: range.kind,
        name: edited_name(&range.name, name)?,
        first: edited_number(range.first, first),
        last: edited_number(range.last, last),
    })
}

/// The member with the name that is given.
fn edited_member(member: &Member, name: &Option<Text>) -> Result<Member, AllocError>
    ensures { IfOk result (λ m. m ≡ edited_member member.now name.now) }
{
    Ok(Member {
        id: member.id,
        range: member.range,
        number: member.number,
        name: edited_name(&member.name, name)?,
    })
}

// ---- what refuses

/// Whether another range has the kind and the name of this one.
fn is_rival(range: &NumberRange, other: &NumberRange) -> bool
    ensures { result ≡ is_rival range_id has_one_name range.now other.now }
{
    if other.id == range.id {
        return false;
    }
    has_name(range.kind, &range.name, other)
}

/// The first other range that has the kind and the name of this one.
fn first_rival<'a>(ranges: &'a [NumberRange], range: &NumberRange) -> Option<&'a NumberRange>
    ensures { option_copied result ≡ find (is_rival range_id has_one_name range.now) ranges.now }
{
    ranges.iter().find(|other| is_rival(range, other))
}

/// The refusal if another range of the kind has the name: it names the one of the least id.
fn name_of_other(rows: &PoolRows, range: &NumberRange) -> Option<PoolRefusal>
    ensures { result ≡ is_name_of_other rows.now.pools range.now }
{
    match first_rival(rows.ranges(), range) {
        Some(other) => Some(PoolRefusal::NameTaken(other.id)),
        None => None,
    }
}

/// Whether the member is one of the range, and its number is none.
fn is_cut_off(range: &NumberRange, member: &Member) -> bool
    ensures { result ≡ is_cut_off range.now member.now }
{
    if member.range != range.id {
        return false;
    }
    member.number < range.first || range.last < member.number
}

/// The first member of the range whose number is none of it.
fn first_cut_off<'a>(members: &'a [Member], range: &NumberRange) -> Option<&'a Member>
    ensures { option_copied result ≡ find (is_cut_off range.now) members.now }
{
    members.iter().find(|member| is_cut_off(range, member))
}

/// The refusal if the range has members outside its bounds: it names the one of the least id.
fn too_small(rows: &PoolRows, range: &NumberRange) -> Option<PoolRefusal>
    ensures { result ≡ is_too_small rows.now.pools range.now }
{
    match first_cut_off(rows.members(), range) {
        Some(member) => Some(PoolRefusal::InUse(member.id)),
        None => None,
    }
}

/// What refuses an edit that leads to this range.
fn edit_range_refusal(rows: &PoolRows, range: &NumberRange) -> Option<PoolRefusal>
    ensures { result ≡ first_of (edit_range_checks rows.now.pools range.now) }
{
    match name_of_other(rows, range) {
        Some(why) => return Some(why),
        None => {}
    }
    match out_of_bounds(range.kind, range.first, range.last) {
        Some(why) => return Some(why),
        None => {}
    }
    match too_small(rows, range) {
        Some(why) => return Some(why),
        None => {}
    }
    too_many(Quantity::Log, MOST_SPENT, rows.spent() as u64 + 1)
}

/// What refuses an edit of a member.
fn edit_member_refusal(rows: &PoolRows) -> Option<PoolRefusal>
    ensures { result ≡ first_of (edit_member_checks rows.now.pools) }
{
    too_many(Quantity::Log, MOST_SPENT, rows.spent() as u64 + 1)
}

// ---- plans

/// What it leads to that a range is to be in the place of one of its id and its kind.
fn plan_edited_range(rows: &PoolRows, range: NumberRange) -> Planned
    requires { KeepsItsKind rows.now.pools range }
    ensures { IsPlannedAs rows.now.pools (edited_range_step rows.now.pools range) result }
{
    match edit_range_refusal(rows, &range) {
        Some(why) => {
            drop(range);
            Planned::Refused(why)
        }
        None => Planned::Change(Update::EditRange(range)),
    }
}

/// What it leads to that a range is to be another.
pub(crate) fn plan_edit_range(
    rows: &PoolRows,
    kind: PoolKind,
    id: u32,
    name: &Option<Text>,
    first: Option<u32>,
    last: Option<u32>,
) -> Result<Planned, AllocError>
    ensures { IfOk result (λ p. IsPlanned rows.now.pools (PoolCall.EditRange kind id name.now first last) p) }
{
    let Some(range) = range_at(rows, kind, id) else {
        return Ok(Planned::Refused(PoolRefusal::Absent(id)));
    };
    Ok(plan_edited_range(rows, edited_range(range, name, first, last)?))
}

/// What it leads to that a member is to be in the place of one of its id, its range and its number.
fn plan_edited_member(rows: &PoolRows, member: Member) -> Planned
    requires { KeepsItsNumber rows.now.pools member }
    ensures { IsPlannedAs rows.now.pools (edited_member_step rows.now.pools member) result }
{
    match edit_member_refusal(rows) {
        Some(why) => {
            drop(member);
            Planned::Refused(why)
        }
        None => Planned::Change(Update::EditMember(member)),
    }
}

/// What it leads to that a member is to have another name.
pub(crate) fn plan_edit_member(
    rows: &PoolRows,
    kind: PoolKind,
    id: u32,
    name: &Option<Text>,
) -> Result<Planned, AllocError>
    ensures { IfOk result (λ p. IsPlanned rows.now.pools (PoolCall.EditMember kind id name.now) p) }
{
    let Some(member) = member_at(rows, kind, id) else {
        return Ok(Planned::Refused(PoolRefusal::Absent(id)));
    };
    Ok(plan_edited_member(rows, edited_member(member, name)?))
}
