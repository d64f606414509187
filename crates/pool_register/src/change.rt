//! Updates as changes of stored pools.

ghost use Rattle.std.specs.Prelude.{◌≡◌, [], ◌∷◌, IfOk};
ghost use Rattle.pool_register.specs.Planned.{CanUpdate, change_of, no_change};

use crate::lists::copies;
use crate::planned::Update;
use number_pools::{Listed, NumberRange};
use pool_keeper::tables::PoolChange;
use pool_rows::PoolRows;
use std::alloc::{AllocError, Global};

/// The change that makes no rows, cuts none and has none in the place of another.
fn no_change(alloc: Global, rows: &PoolRows) -> PoolChange
    ensures { result ≡ no_change rows.now.pools }
{
    PoolChange {
        next_range: rows.next_range(),
        next_member: rows.next_member(),
        new_ranges: Listed::of(Vec::new(alloc)),
        new_members: Listed::of(Vec::new(alloc)),
        cut_range: None,
        cut_member: None,
        changed_range: None,
        changed_member: None,
    }
}

/// The list of one range, again.
fn one_range(alloc: Global, range: &NumberRange) -> Result<Listed<NumberRange>, AllocError>
    ensures { IfOk result (λ l. l ≡ range.now ∷ []) }
{
    let mut items = Vec::new(alloc);
    items.push(range.copy()?)?;
    Ok(Listed::of(items))
}

/// The change of stored pools that an update makes. `Err` means out of memory.
pub(crate) fn change_of(
    alloc: Global,
    rows: &PoolRows,
    update: &Update,
) -> Result<PoolChange, AllocError>
    requires { CanUpdate rows.now.pools update.now }
    ensures { IfOk result (λ c. c ≡ change_of rows.now.pools update.now) }
{
    let mut change = no_change(alloc, rows);
    match update {
        Update::AddRange(range) => {
            change.new_ranges = one_range(alloc, range)?;
            change.next_range = rows.next_range() + 1;
        }
        Update::CutRange(id) => change.cut_range = Some(*id),
        Update::CutMember(id) => change.cut_member = Some(*id),
        Update::Claim(made) => {
            let members = made.as_slice();
            change.new_members = Listed::of(copies(alloc, members)?);
            change.next_member = rows.next_member() + members.len() as u32;
        }
        Update::EditRange(range) => change.changed_range = Some(range.copy()?),
        Update::EditMember(member) => change.changed_member = Some(member.copy()?),
    }
    Ok(change)
}
