//! What it leads to that chosen numbers are to be recorded.

ghost use Rattle.std.specs.Prelude.{◌≡◌, ◌+◌, ◌≤◌, ◌==◌, ◌∷◌, [], Bool, Some, IfOk, length};
ghost use Rattle.std.specs.List.{list_any};
ghost use Rattle.ipam_data.specs.Checks.{first as first_of};
ghost use Rattle.ipam_data.specs.RowList.{last_next};
ghost use Rattle.number_pools.specs.Steps.{is_number_taken, is_outside, is_repeated, made_members, names_of, numbers_of, record_checks, record_step, unfit};
ghost use Rattle.pool_register.specs.Planned.{IsPlanned, IsPlannedAs};

use crate::checks::{member_limit, range_at, too_many};
use crate::planned::{Planned, Update};
use number_pools::{
    Chosen, Listed, MOST_CLAIMED, Member, NumberRange, PoolCall, PoolKind, PoolRefusal, Quantity,
};
use pool_rows::PoolRows;
use std::alloc::{AllocError, Global};

/// The refusal if a number is none of a range.
fn outside(range: &NumberRange, number: u32) -> Option<PoolRefusal>
    ensures { result ≡ is_outside range.now number }
{
    if range.first <= number && number <= range.last {
        None
    } else {
        Some(PoolRefusal::Outside(number))
    }
}

/// The refusal if a member of the range's pool holds a number: it says the member.
fn number_taken(rows: &PoolRows, range: &NumberRange, number: u32) -> Option<PoolRefusal>
    ensures { result ≡ is_number_taken rows.now.pools range.now number }
{
    match rows.holder(range, number) {
        Some(id) => Some(PoolRefusal::Taken(number, id)),
        None => None,
    }
}

/// Whether one of these items has the number.
fn has_number(items: &[Chosen], number: u32) -> bool
    ensures { result ≡ list_any (λ c. c.number == number) items.now }
{
    items.iter().any(|item| item.number == number)
}

/// The refusal if one of the items before has the number.
fn repeated(before: &[Chosen], number: u32) -> Option<PoolRefusal>
    ensures { result ≡ is_repeated (numbers_of before.now) number }
{
    if has_number(before, number) {
        Some(PoolRefusal::Repeated(number))
    } else {
        None
    }
}

/// What refuses a number after the items before it.
fn number_unfit(
    rows: &PoolRows,
    range: &NumberRange,
    before: &[Chosen],
    number: u32,
) -> Option<PoolRefusal>
    ensures { result ≡ first_of (is_outside range.now number ∷ is_number_taken rows.now.pools range.now number ∷ is_repeated (numbers_of before.now) number ∷ []) }
{
    match outside(range, number) {
        Some(why) => return Some(why),
        None => {}
    }
    match number_taken(rows, range, number) {
        Some(why) => return Some(why),
        None => {}
    }
    repeated(before, number)
}

/// What refuses the first of the items whose number can't be recorded.
fn item_unfit(rows: &PoolRows, range: &NumberRange, items: &[Chosen]) -> Option<PoolRefusal>
    ensures { result ≡ unfit rows.now.pools range.now [] (numbers_of items.now) }
{
    let mut at = 0;
    'item: while at < items.len() {
        match number_unfit(rows, range, &items[..at], items[at].number) {
            Some(why) => return Some(why),
            None => {}
        }
        at += 1;
    }
    None
}

/// What refuses that chosen numbers of a range are recorded.
fn record_refusal(rows: &PoolRows, range: &NumberRange, items: &[Chosen]) -> Option<PoolRefusal>
    ensures { result ≡ first_of (record_checks rows.now.pools range.now items.now) }
{
    match too_many(Quantity::Items, MOST_CLAIMED, items.len() as u64) {
        Some(why) => return Some(why),
        None => {}
    }
    match item_unfit(rows, range, items) {
        Some(why) => return Some(why),
        None => {}
    }
    member_limit(rows, items.len() as u32)
}

/// Members of a range for these items, from this id on.
fn recorded(alloc: Global, id: u32, range: u32, items: &[Chosen]) -> Result<Vec<Member>, AllocError>
    requires { id + length items.now ≤ last_next }
    ensures { IfOk result (λ v. v.items ≡ made_members id range (numbers_of items.now) (names_of items.now)) }
{
    let mut out = Vec::new(alloc);
    let mut next = id;
    'item: for item in items {
        out.push(Member {
            id: next,
            range,
            number: item.number,
            name: item.name.copy()?,
        })?;
        next += 1;
    }
    Ok(out)
}

/// What it leads to that chosen numbers of an existing range are to be recorded.
fn plan_record_on(
    alloc: Global,
    rows: &PoolRows,
    range: &NumberRange,
    items: &[Chosen],
) -> Result<Planned, AllocError>
    ensures { IfOk result (IsPlannedAs rows.now.pools (record_step rows.now.pools range.now.id items.now (Some range.now))) }
{
    match record_refusal(rows, range, items) {
        Some(why) => return Ok(Planned::Refused(why)),
        None => {}
    }
    let made = recorded(alloc, rows.next_member(), range.id, items)?;
    Ok(Planned::Change(Update::Claim(Listed::of(made))))
}

/// What it leads to that chosen numbers are to be recorded.
pub(crate) fn plan_record(
    alloc: Global,
    rows: &PoolRows,
    kind: PoolKind,
    id: u32,
    items: &Listed<Chosen>,
) -> Result<Planned, AllocError>
    ensures { (list : Bool) → IfOk result (λ p. IsPlanned rows.now.pools (PoolCall.Record kind id list items.now) p) }
{
    let Some(range) = range_at(rows, kind, id) else {
        return Ok(Planned::Refused(PoolRefusal::Absent(id)));
    };
    plan_record_on(alloc, rows, range, items.as_slice())
}
