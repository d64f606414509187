//! The checks of calls.

ghost use Rattle.std.specs.Prelude.{◌≡◌, find, option_copied, option_map, is_some};
ghost use Rattle.ipam_data.specs.Checks.{first as first_of};
ghost use Rattle.ipam_data.specs.RowList.{least};
ghost use Rattle.number_pools.specs.Rows.{member_id, range_id};
ghost use Rattle.number_pools.specs.declared.calls.PoolRefusal.TheVariants.{InUse, NameTaken};
ghost use Rattle.number_pools.specs.Steps.{add_checks, cut_member_checks, cut_range_checks, has_name, in_bounds, is_of_range, is_out_of_bounds, member_at, member_limits, no_ids, range_at, same_kind, too_many};

use ipam_data::kinds::{LAST_ID, MOST_SPENT};
use number_pools::{
    MOST_MEMBERS, MOST_RANGES, Member, NumberRange, PoolKind, PoolRefusal, Quantity,
};
use pool_opening::{has_name, in_bounds, same_kind};
use pool_rows::PoolRows;
use stored_tables::tables::Text;

// ---- which rows are meant

/// The range of a kind with this id.
pub(crate) fn range_at(rows: &PoolRows, kind: PoolKind, id: u32) -> Option<&NumberRange>
    ensures { option_copied result ≡ range_at rows.now.pools.ranges.rows kind id }
{
    match rows.range(id) {
        Some(range) => {
            if same_kind(range.kind, kind) {
                Some(range)
            } else {
                None
            }
        }
        None => None,
    }
}

/// Whether there is a range of a kind with this id.
pub(crate) fn has_range(rows: &PoolRows, kind: PoolKind, id: u32) -> bool
    ensures { result ≡ is_some (range_at rows.now.pools.ranges.rows kind id) }
{
    match range_at(rows, kind, id) {
        Some(_) => true,
        None => false,
    }
}

/// The member with this id, if its range is of the kind.
pub(crate) fn member_at(rows: &PoolRows, kind: PoolKind, id: u32) -> Option<&Member>
    ensures { option_copied result ≡ member_at rows.now.pools kind id }
{
    match rows.member(id) {
        Some(member) => {
            if has_range(rows, kind, member.range) {
                Some(member)
            } else {
                None
            }
        }
        None => None,
    }
}

/// Whether there is a member with this id, whose range is of the kind.
pub(crate) fn has_member(rows: &PoolRows, kind: PoolKind, id: u32) -> bool
    ensures { result ≡ is_some (member_at rows.now.pools kind id) }
{
    match member_at(rows, kind, id) {
        Some(_) => true,
        None => false,
    }
}

// ---- what refuses

/// The refusal if there would be more than may be.
pub(crate) fn too_many(which: Quantity, most: u32, count: u64) -> Option<PoolRefusal>
    ensures { result ≡ too_many which most count }
{
    if count <= most as u64 {
        None
    } else {
        Some(PoolRefusal::Limit(which, most))
    }
}

/// The refusal if the next id and the number of new rows exceed the last next id.
pub(crate) fn no_ids(next: u32, more: u32) -> Option<PoolRefusal>
    ensures { result ≡ no_ids next more }
{
    if next as u64 + more as u64 <= LAST_ID as u64 + 1 {
        None
    } else {
        Some(PoolRefusal::Limit(Quantity::Ids, LAST_ID))
    }
}

/// The first range of the kind with the name.
fn named<'a>(ranges: &'a [NumberRange], kind: PoolKind, name: &Text) -> Option<&'a NumberRange>
    ensures { option_copied result ≡ find (has_name kind name.now) ranges.now }
{
    ranges.iter().find(|range| has_name(kind, name, range))
}

/// The refusal if a range of the kind has the name: it names the one of the least id.
fn name_taken(ranges: &[NumberRange], kind: PoolKind, name: &Text) -> Option<PoolRefusal>
    ensures { result ≡ option_map NameTaken (least range_id (has_name kind name.now) ranges.now) }
{
    match named(ranges, kind, name) {
        Some(range) => Some(PoolRefusal::NameTaken(range.id)),
        None => None,
    }
}

/// Whether a member is of the range of an id.
fn is_of_range(id: u32, member: &Member) -> bool
    ensures { result ≡ is_of_range id member.now }
{
    member.range == id
}

/// The first member of the range of an id.
fn first_of_range(members: &[Member], id: u32) -> Option<&Member>
    ensures { option_copied result ≡ find (is_of_range id) members.now }
{
    members.iter().find(|member| is_of_range(id, member))
}

/// The refusal if the range of an id has members: it names the one of the least id.
fn in_use(members: &[Member], id: u32) -> Option<PoolRefusal>
    ensures { result ≡ option_map InUse (least member_id (is_of_range id) members.now) }
{
    match first_of_range(members, id) {
        Some(member) => Some(PoolRefusal::InUse(member.id)),
        None => None,
    }
}

/// The refusal if a range would not be in its bounds.
pub(crate) fn out_of_bounds(kind: PoolKind, first: u32, last: u32) -> Option<PoolRefusal>
    ensures { result ≡ is_out_of_bounds kind first last }
{
    if in_bounds(kind, first, last) {
        None
    } else {
        Some(PoolRefusal::Bounds)
    }
}

// ---- the checks of each call, of which the first that refuses counts

/// What refuses a new range.
pub(crate) fn add_refusal(
    rows: &PoolRows,
    kind: PoolKind,
    name: &Text,
    first: u32,
    last: u32,
) -> Option<PoolRefusal>
    ensures { result ≡ first_of (add_checks rows.now.pools kind name.now first last) }
{
    let ranges = rows.ranges();
    match name_taken(ranges, kind, name) {
        Some(why) => return Some(why),
        None => {}
    }
    match out_of_bounds(kind, first, last) {
        Some(why) => return Some(why),
        None => {}
    }
    match too_many(Quantity::Ranges, MOST_RANGES, ranges.len() as u64 + 1) {
        Some(why) => return Some(why),
        None => {}
    }
    match no_ids(rows.next_range(), 1) {
        Some(why) => return Some(why),
        None => {}
    }
    too_many(Quantity::Log, MOST_SPENT, rows.spent() as u64 + 1)
}

/// What refuses that a range goes.
pub(crate) fn cut_range_refusal(rows: &PoolRows, id: u32) -> Option<PoolRefusal>
    ensures { result ≡ first_of (cut_range_checks rows.now.pools id) }
{
    match in_use(rows.members(), id) {
        Some(why) => return Some(why),
        None => {}
    }
    too_many(Quantity::Log, MOST_SPENT, rows.spent() as u64 + 1)
}

/// What refuses that a member goes.
pub(crate) fn cut_member_refusal(rows: &PoolRows) -> Option<PoolRefusal>
    ensures { result ≡ first_of (cut_member_checks rows.now.pools) }
{
    too_many(Quantity::Log, MOST_SPENT, rows.spent() as u64 + 1)
}

/// What refuses so many new members, once there are numbers for them.
pub(crate) fn member_limit(rows: &PoolRows, n: u32) -> Option<PoolRefusal>
    ensures { result ≡ first_of (member_limits rows.now.pools n) }
{
    match too_many(
        Quantity::Members,
        MOST_MEMBERS,
        rows.members().len() as u64 + n as u64,
    ) {
        Some(why) => return Some(why),
        None => {}
    }
    match no_ids(rows.next_member(), n) {
        Some(why) => return Some(why),
        None => {}
    }
    too_many(Quantity::Log, MOST_SPENT, rows.spent() as u64 + n as u64)
}
