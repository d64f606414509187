//! Pages of the members of a kind.

ghost use Rattle.std.specs.Prelude.{◌≡◌, ◌<◌, ◌+◌, ◌^◌, ◌++◌, ◌&&◌, [], IfOk, OnOk, bytes_eq, count_by};
ghost use Rattle.ipam_data.specs.Checks.{asks};
ghost use Rattle.ipam_data.specs.Pages.{is_paged, one_if, only_if, page_of};
ghost use Rattle.number_pools.specs.Steps.{is_listed, is_wanted};
ghost use Rattle.pool_register.specs.Planned.{IsPlanned};

use crate::checks::has_range;
use crate::planned::Planned;
use ipam_data::listing::{asks_number, is_on_page};
use number_pools::{Listed, Member, MemberQuery, PoolCall, PoolKind, PoolReply};
use pool_rows::PoolRows;
use std::alloc::{AllocError, Global};
use stored_tables::tables::Text;

/// Whether the name is the one that is asked for. It is if none is asked for.
fn asks_name(wanted: &Option<Text>, name: &Text) -> bool
    ensures { result ≡ asks wanted.now (λ w. bytes_eq name.now w) }
{
    match wanted {
        None => true,
        Some(wanted) => name.as_str() == wanted.as_str(),
    }
}

/// Whether a member has what is asked for.
fn is_wanted(query: &MemberQuery, member: &Member) -> bool
    ensures { result ≡ is_wanted query.now member.now }
{
    asks_number(&query.number, member.number)
        && asks_number(&query.range, member.range)
        && asks_name(&query.name, &member.name)
}

/// Whether a member is on a list.
fn is_listed(rows: &PoolRows, kind: PoolKind, query: &MemberQuery, member: &Member) -> bool
    ensures { result ≡ is_listed rows.now.pools.ranges.rows kind query.now member.now }
{
    has_range(rows, kind, member.range) && is_wanted(query, member)
}

/// Adds a member to a page if it is on the list and on the page, and gives how many are on the list now. `Err` means out of memory.
fn take_in(
    rows: &PoolRows,
    kind: PoolKind,
    query: &MemberQuery,
    member: &Member,
    met: u32,
    page: &mut Vec<Member>,
) -> Result<u32, AllocError>
    requires few { met < 2 ^ 30 }
    ensures met { IfOk result (λ n. n ≡ met + one_if (is_listed rows.now.pools.ranges.rows kind query.now member.now)) }
    ensures page { OnOk result (page.new.items ≡ page.old.items ++ only_if (is_listed rows.now.pools.ranges.rows kind query.now member.now && is_paged met query.now.limit query.now.offset) member.now) }
{
    if !is_listed(rows, kind, query, member) {
        return Ok(met);
    }
    if !is_on_page(met, query.limit, query.offset) {
        return Ok(met + 1);
    }
    page.push(member.copy()?)?;
    Ok(met + 1)
}

/// Adds the members of a page, and gives how many are on the list. `Err` means out of memory.
fn take_all(
    rows: &PoolRows,
    kind: PoolKind,
    query: &MemberQuery,
    page: &mut Vec<Member>,
) -> Result<u32, AllocError>
    requires { page.old.items ≡ [] }
    ensures met { IfOk result (λ n. n ≡ count_by (is_listed rows.now.pools.ranges.rows kind query.now) rows.now.pools.members.rows) }
    ensures page { OnOk result (page.new.items ≡ page_of (λ m. m) (is_listed rows.now.pools.ranges.rows kind query.now) query.now.limit query.now.offset rows.now.pools.members.rows) }
{
    let _count = rows.member_count();
    let members = rows.members();
    let mut met: u32 = 0;
    'row: for member in members {
        met = take_in(rows, kind, query, member, met, page)?;
    }
    Ok(met)
}

/// A page of the members of a kind that a query asks for.
pub(crate) fn read_page(
    alloc: Global,
    rows: &PoolRows,
    kind: PoolKind,
    query: &MemberQuery,
) -> Result<Planned, AllocError>
    ensures { IfOk result (λ p. IsPlanned rows.now.pools (PoolCall.Page kind query.now) p) }
{
    let mut page = Vec::new(alloc);
    let count = take_all(rows, kind, query, &mut page)?;
    Ok(Planned::Read(PoolReply::Page {
        query: query.copy()?,
        count,
        members: Listed::of(page),
    }))
}
