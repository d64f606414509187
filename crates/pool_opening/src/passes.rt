//! The passes over stored pools, each over all rows.

ghost use Rattle.std.specs.Prelude.{◌≡◌, ◌<◌, ◌≤◌, ◌^◌, ◌||◌, [], None, IfOk, length};
ghost use Rattle.std.specs.List.{list_any};
ghost use Rattle.inet_num.specs.declared.Family.TheVariants.{V6};
ghost use Rattle.ipam_data.specs.RowList.{Rises};
ghost use Rattle.number_pools.specs.Rows.{member_id, range_id};
ghost use Rattle.pool_opening.specs.Faults.{breaks_member, breaks_range, is_bad_next, is_not_above, least_broken};

use crate::rules::{
    breaks_by_tree, breaks_range, greater, key_of_member, lesser_if, number_fits, range_of,
};
use block_space::Space;
use inet_num::Family;
use number_pools::{MOST_HELD, Member, NumberRange};
use pool_keeper::tables::PoolTables;
use radix_tree::Tree;
use std::alloc::{AllocError, Global};

/// The least id of a range that breaks a rule given those before it.
pub(crate) fn bad_range(ranges: &[NumberRange]) -> Option<u32>
    ensures { result ≡ least_broken range_id breaks_range [] None ranges.now }
{
    let mut found = None;
    let mut top = 0;
    let mut at = 0;
    'row: while at < ranges.len() {
        let range = &ranges[at];
        found = lesser_if(breaks_range(&ranges[..at], top, range), range.id, found);
        top = greater(top, range.id);
        at += 1;
    }
    found
}

/// The least id of a member that breaks a rule given those before it, by a tree that is empty at first. Each looks its range up once.
fn pass_members(ranges: &[NumberRange], members: &[Member], taken: &mut Tree) -> Option<u32>
    requires ordered { Rises range_id 0 ranges.now }
    requires empty { taken.old.blocks ≡ [] }
    requires family { taken.old.family ≡ V6 }
    requires room { length members.now ≤ taken.old.spare }
    requires few { length members.now < 2 ^ 30 }
    ensures { result ≡ least_broken member_id (breaks_member ranges.now) [] None members.now }
{
    let mut found = None;
    let mut top = 0;
    let mut at = 0;
    'row: while at < members.len() {
        let member = &members[at];
        number_fits(member);
        let range = range_of(ranges, member.range);
        let key = key_of_member(range, member);
        found = lesser_if(
            breaks_by_tree(range, key, taken, top, member),
            member.id,
            found,
        );
        top = greater(top, member.id);
        taken.insert(key);
        at += 1;
    }
    found
}

/// The least id of a member that breaks a rule given those before it. `Err` means out of memory, or more members than can be held.
pub(crate) fn bad_member(
    alloc: Global,
    ranges: &[NumberRange],
    members: &[Member],
) -> Result<Option<u32>, AllocError>
    requires { Rises range_id 0 ranges.now }
    ensures { IfOk result (λ found. found ≡ least_broken member_id (breaks_member ranges.now) [] None members.now) }
{
    if members.len() > MOST_HELD {
        return Err(AllocError);
    }
    let mut taken = Tree::new(alloc, Family::V6);
    taken.reserve(members.len() as u32)?;
    Ok(pass_members(ranges, members, &mut taken))
}

/// Whether a range has no id below this one.
fn any_range(ranges: &[NumberRange], next: u32) -> bool
    ensures { result ≡ list_any (is_not_above range_id next) ranges.now }
{
    ranges.iter().any(|range| next <= range.id)
}

/// Whether a member has no id below this one.
fn any_member(members: &[Member], next: u32) -> bool
    ensures { result ≡ list_any (is_not_above member_id next) members.now }
{
    members.iter().any(|member| next <= member.id)
}

/// Whether a next id is 0, or not above all ids.
pub(crate) fn any_bad_next(tables: &PoolTables) -> bool
    ensures { result ≡ (is_bad_next range_id tables.now.ranges tables.now.next_range || is_bad_next member_id tables.now.members tables.now.next_member) }
{
    tables.next_range == 0
        || any_range(tables.ranges.as_slice(), tables.next_range)
        || tables.next_member == 0
        || any_member(tables.members.as_slice(), tables.next_member)
}
