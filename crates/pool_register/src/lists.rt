//! Lists of rows, again.

ghost use Rattle.std.specs.Prelude.{◌≡◌, ◌+◌, ◌≤◌, IfOk, length};
ghost use Rattle.ipam_data.specs.RowList.{last_next};
ghost use Rattle.number_pools.specs.Steps.{made_members, members_of, ranges_of};

use number_pools::{Member, NumberRange, PoolKind};
use pool_opening::same_kind;
use std::alloc::{AllocError, Global};
use stored_tables::tables::Text;

/// The ranges of a kind, again.
pub(crate) fn ranges_of(
    alloc: Global,
    ranges: &[NumberRange],
    kind: PoolKind,
) -> Result<Vec<NumberRange>, AllocError>
    ensures { IfOk result (λ v. v.items ≡ ranges_of ranges.now kind) }
{
    let mut out = Vec::new(alloc);
    'row: for range in ranges {
        if same_kind(range.kind, kind) {
            out.push(range.copy()?)?;
        }
    }
    Ok(out)
}

/// The members of a range, again.
pub(crate) fn members_of(
    alloc: Global,
    members: &[Member],
    id: u32,
) -> Result<Vec<Member>, AllocError>
    ensures { IfOk result (λ v. v.items ≡ members_of members.now id) }
{
    let mut out = Vec::new(alloc);
    'row: for member in members {
        if member.range == id {
            out.push(member.copy()?)?;
        }
    }
    Ok(out)
}

/// The same members again.
pub(crate) fn copies(alloc: Global, members: &[Member]) -> Result<Vec<Member>, AllocError>
    ensures { IfOk result (λ v. v.items ≡ members.now) }
{
    let mut out = Vec::with_capacity(alloc, members.len())?;
    for member in members {
        out.push(member.copy()?)?;
    }
    Ok(out)
}

/// Members of a range with these names, from this id on, which hold these numbers.
pub(crate) fn made_members(
    alloc: Global,
    id: u32,
    range: u32,
    numbers: &[u32],
    names: &[Text],
) -> Result<Vec<Member>, AllocError>
    requires same { length numbers.now ≡ length names.now }
    requires ids { id + length names.now ≤ last_next }
    ensures { IfOk result (λ v. v.items ≡ made_members id range numbers.now names.now) }
{
    let mut out = Vec::new(alloc);
    let mut next = id;
    let mut at = 0;
    'row: while at < names.len() {
        out.push(Member {
            id: next,
            range,
            number: numbers[at],
            name: names[at].copy()?,
        })?;
        at += 1;
        next += 1;
    }
    Ok(out)
}
