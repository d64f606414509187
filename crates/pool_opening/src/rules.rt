//! The rules of single rows.

ghost use Rattle.std.specs.Prelude.{◌≡◌, ◌||◌, ◌<◌, nat_le, nat_lt, option_copied};
ghost use Rattle.std.specs.List.{list_any};
ghost use Rattle.inet_num.specs.declared.Family.TheVariants.{V6};
ghost use Rattle.block_space.specs.Listed.{times_of};
ghost use Rattle.ipam_data.specs.RowList.{Rises, row_at};
ghost use Rattle.number_pools.specs.Free.{pool_found};
ghost use Rattle.number_pools.specs.Keys.{key_of, pool_size};
ghost use Rattle.number_pools.specs.Rows.{range_id};
ghost use Rattle.number_pools.specs.Steps.{has_name, in_bounds, same_kind};
ghost use Rattle.pool_opening.specs.Faults.{breaks_range, greater, is_outside, lesser_if, top_of};

use block_space::Space;
use inet_num::Block;
use number_pools::{Member, NumberRange, PoolKind, pool_of};
use pool_rows::key_at;
use radix_tree::Tree;
use stored_tables::tables::Text;

/// Whether two kinds are one.
pub fn same_kind(one: PoolKind, other: PoolKind) -> bool
    ensures { result ≡ same_kind one other }
{
    match one {
        PoolKind::Asn => match other {
            PoolKind::Asn => true,
            PoolKind::Vlan => false,
        },
        PoolKind::Vlan => match other {
            PoolKind::Asn => false,
            PoolKind::Vlan => true,
        },
    }
}

/// Whether a range is of the kind and has the name.
pub fn has_name(kind: PoolKind, name: &Text, range: &NumberRange) -> bool
    ensures { result ≡ has_name kind name.now range.now }
{
    same_kind(range.kind, kind) && range.name.as_str() == name.as_str()
}

/// Whether a range would be in its bounds.
pub fn in_bounds(kind: PoolKind, first: u32, last: u32) -> bool
    ensures { result ≡ in_bounds kind first last }
{
    1 <= first && first <= last && last <= kind.most()
}

/// The lesser of an id and the least so far, if its row breaks a rule; else the least so far.
pub(crate) fn lesser_if(broken: bool, id: u32, found: Option<u32>) -> Option<u32>
    ensures { result ≡ lesser_if broken id found }
{
    if !broken {
        return found;
    }
    match found {
        Some(least) => { if least <= id { Some(least) } else { Some(id) } }
        None => Some(id),
    }
}

/// The greater of two ids.
pub(crate) fn greater(top: u32, id: u32) -> u32
    ensures { result ≡ greater top id }
{
    if id <= top { top } else { id }
}

/// Whether a range of the kind has the name.
fn is_named(ranges: &[NumberRange], kind: PoolKind, name: &Text) -> bool
    ensures { result ≡ list_any (has_name kind name.now) ranges.now }
{
    ranges.iter().any(|range| has_name(kind, name, range))
}

/// Whether a range breaks a rule given those before it, whose greatest id is given.
pub(crate) fn breaks_range(before: &[NumberRange], top: u32, range: &NumberRange) -> bool
    requires { top ≡ top_of range_id before.now }
    ensures { result ≡ breaks_range before.now range.now }
{
    range.id <= top
        || is_named(before, range.kind, &range.name)
        || !in_bounds(range.kind, range.first, range.last)
}

/// The range of an id, by halving.
pub(crate) fn range_of(ranges: &[NumberRange], id: u32) -> Option<&NumberRange>
    requires { Rises range_id 0 ranges.now }
    ensures { option_copied result ≡ row_at range_id ranges.now id }
{
    match ranges.binary_search_by_key(&id, |range| range.id) {
        Ok(at) => Some(&ranges[at]),
        Err(_) => None,
    }
}

/// Whether a number is none of a range, or the range is not there.
fn is_outside(range: Option<&NumberRange>, number: u32) -> bool
    ensures { result ≡ is_outside (option_copied range.entry) number }
{
    match range {
        Some(range) => !(range.first <= number && number <= range.last),
        None => true,
    }
}

/// The pool of a range; without one, the id.
fn pool_found(range: Option<&NumberRange>, id: u32) -> u32
    ensures { result ≡ pool_found (option_copied range.entry) id }
{
    match range {
        Some(range) => pool_of(range),
        None => id,
    }
}

/// The block of the number of a member, whose range is given.
pub(crate) fn key_of_member(range: Option<&NumberRange>, member: &Member) -> Block
    ensures { result ≡ record { family = V6; first = key_of (pool_found (option_copied range.entry) member.now.range) member.now.number; len = 128 } }
{
    key_at(pool_found(range, member.range), member.number)
}

/// Whether a member, whose range and block are given, breaks a rule given those before it, whose greatest id is given and whose numbers the
/// tree holds.
pub(crate) fn breaks_by_tree(
    range: Option<&NumberRange>,
    key: Block,
    taken: &Tree,
    top: u32,
    member: &Member,
) -> bool
    requires { key.family ≡ taken.now.family }
    ensures { result ≡ (nat_le member.now.id top || is_outside (option_copied range.entry) member.now.number || nat_lt 0 (times_of taken.now.blocks key)) }
{
    member.id <= top || is_outside(range, member.number) || taken.times(key) > 0
}

/// A number of a member is below the size of a pool. A law.
pub(crate) fn number_fits(member: &Member)
    ensures { member.now.number < pool_size }
{
    let _number = u64::from(member.number);
}
