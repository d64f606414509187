//! The addresses of prefixes and ranges that can be given out, and how much of them is used.

ghost use Rattle.std.specs.Prelude.{◌≡◌, false, ◌+◌, ◌-◌, ◌^◌, ◌<◌, ◌≤◌, ℕ, Some, take, length, IfOk, IfErr};
ghost use Rattle.std.specs.List.{AllByRecursion, flat_map};
ghost use Rattle.inet_num.specs.declared.Family.{Family};
ghost use Rattle.inet_num.specs.Net.{width_of};
ghost use Rattle.inet_num.specs.Count.{addresses_of};
ghost use Rattle.block_space.specs.Usable.{addressed};
ghost use Rattle.block_claim.specs.Claims.{IsServed, IsShort};
ghost use Rattle.ipam_data.specs.Tables.{table_of};
ghost use Rattle.ipam_data.specs.Lawful.{IsLawful, IsRange};
ghost use Rattle.ipam_data.specs.RowList.{row_at};
ghost use Rattle.ipam_data.specs.Rows.{prefix_id, range_id};
ghost use Rattle.ipam_data.specs.Prefixes.{prefix_rules};
ghost use Rattle.ipam_data.specs.Ranges.{range_rules};
ghost use Rattle.register_tables.specs.Held.{state_of};
ghost use Rattle.register_tables.specs.Planned.{IsPlanned};
ghost use Rattle.ip_ranges.specs.declared.SpanKind.TheVariants.{Utilized as UtilizedRanges, Populated as PopulatedRanges};
ghost use Rattle.ipam_data.specs.Claims.{is_container, usable_in, usable_of_range, prefix_figure, range_figure, prefix_addrs_plan, range_addrs_plan, figure_plan};
ghost use Rattle.ip_ranges.specs.Spans.{AreSpansOf};
ghost use Rattle.register_claims.specs.Hosts.{given_numbers};

use crate::host_spaces::{hosts_of_prefix, hosts_of_range};
use crate::ranges::{given_pieces, spans_of};
use block_claim::{ClaimFault, plan_addrs, plan_range};
use block_space::Space;
use free_space::{available_addrs, range_addrs};
use inet_num::{Addr, Block, Span};
use ip_ranges::SpanKind;
use ipam_data::kinds::{Kind, Table};
use ipam_data::prefix::Prefix;
use ipam_data::range::IpRange;
use ipam_data::replies::{Addrs, Refusal, Reply};
use placed_book::Book;
use radix_tree::Tree;
use register_tables::{Planned, RowTables};
use std::alloc::AllocError;
use utilisation::{of_hosts, of_range};

/// The first usable addresses of a prefix, given the spans of the populated ranges of its table.
fn usable_of_prefix(
    row_tables: &RowTables,
    held: &[Span],
    row: &Prefix,
    limit: u32,
) -> Result<Vec<Addr>, AllocError>
    requires { AreSpansOf row_tables.now.ranges.rows (table_of row.now.vrf) row.now.block.family PopulatedRanges held.now }
    ensures { IfOk result (λ v. v.items ≡ take limit (addressed row.now.block.family (usable_in (state_of row_tables.now) row.now))) }
{
    let alloc = row_tables.allocator();
    let empty = Tree::new(alloc, row.block.family());
    let hosts = hosts_of_prefix(row_tables.addresses(), row, &empty);
    available_addrs(alloc, hosts, held, row.block, row.is_pool, limit)
}

/// The first addresses of the pieces of a range that no host has.
fn usable_of_pieces(
    row_tables: &RowTables,
    pieces: &[Block],
    row: &IpRange,
    limit: u32,
) -> Result<Vec<Addr>, AllocError>
    requires numbers { flat_map addresses_of pieces.now ≡ given_numbers row.now }
    requires family { AllByRecursion (λ b. b.family ≡ row.now.ends.start.family) pieces.now }
    ensures { IfOk result (λ v. v.items ≡ take limit (addressed row.now.ends.start.family (usable_of_range (state_of row_tables.now) row.now))) }
{
    let alloc = row_tables.allocator();
    let empty = Tree::new(alloc, row.ends.start().family());
    let hosts = hosts_of_range(row_tables.addresses(), row, &empty);
    range_addrs(alloc, hosts, pieces, limit)
}

/// The lowest usable addresses of a prefix, as many as are wanted, or the first item that gets none.
pub fn claimed_of_prefix(
    row_tables: &RowTables,
    held: &[Span],
    row: &Prefix,
    n: u32,
) -> Result<Vec<Addr>, ClaimFault>
    requires { AreSpansOf row_tables.now.ranges.rows (table_of row.now.vrf) row.now.block.family PopulatedRanges held.now }
    ensures ok { IfOk result (λ v. IsServed n (addressed row.now.block.family (usable_in (state_of row_tables.now) row.now)) v.items) }
    ensures err { IfErr result (IsShort n (length (usable_in (state_of row_tables.now) row.now))) }
    ensures count { IfOk result (λ v. length v.items ≡ n) }
    ensures mask { IfOk result (λ v. AllByRecursion (λ a. row.now.block.len ≤ width_of a.family) v.items) }
{
    row.block.bounds();
    let alloc = row_tables.allocator();
    let empty = Tree::new(alloc, row.block.family());
    let hosts = hosts_of_prefix(row_tables.addresses(), row, &empty);
    plan_addrs(alloc, hosts, held, row.block, row.is_pool, n)
}

/// The lowest addresses of the pieces of a range that no host has, as many as are wanted, or the first item that gets none.
pub fn claimed_of_range(
    row_tables: &RowTables,
    pieces: &[Block],
    row: &IpRange,
    n: u32,
) -> Result<Vec<Addr>, ClaimFault>
    requires numbers { flat_map addresses_of pieces.now ≡ given_numbers row.now }
    requires family { AllByRecursion (λ b. b.family ≡ row.now.ends.start.family) pieces.now }
    ensures ok { IfOk result (λ v. IsServed n (addressed row.now.ends.start.family (usable_of_range (state_of row_tables.now) row.now)) v.items) }
    ensures err { IfErr result (IsShort n (length (usable_of_range (state_of row_tables.now) row.now))) }
    ensures count { IfOk result (λ v. length v.items ≡ n) }
    ensures mask { IfOk result (λ v. AllByRecursion (λ a. row.now.ends.len ≤ width_of a.family) v.items) }
{
    let alloc = row_tables.allocator();
    let empty = Tree::new(alloc, row.ends.start().family());
    let hosts = hosts_of_range(row_tables.addresses(), row, &empty);
    plan_range(alloc, hosts, pieces, n)
}

/// The first usable addresses of the prefix of an id, at most so many. `Err` means out of memory.
pub fn plan_prefix_addrs(row_tables: &RowTables, id: u32, limit: u32) -> Result<Planned, AllocError>
    requires { IsLawful (state_of row_tables.now) }
    ensures { IfOk result (λ p. IsPlanned (prefix_addrs_plan (state_of row_tables.now) id limit) p) }
{
    let Some(row) = row_tables.prefixes().get(id) else {
        return Ok(Planned::Refused(Refusal::NotFound(Kind::Prefixes, id)));
    };
    let family = row.block.family();
    let held = spans_of(row_tables, Table::of(row.vrf), family, SpanKind::Populated);
    let found = usable_of_prefix(row_tables, held, row, limit)?;
    Ok(Planned::Read(Reply::Addrs {
        vrf: row.vrf,
        len: row.block.len(),
        list: Addrs::of(found),
    }))
}

/// The first addresses of the range of an id that no host has, at most so many, and none if somebody else fills it. `Err` means out
/// of memory.
pub fn plan_range_addrs(row_tables: &RowTables, id: u32, limit: u32) -> Result<Planned, AllocError>
    requires { IsLawful (state_of row_tables.now) }
    ensures { IfOk result (λ p. IsPlanned (range_addrs_plan (state_of row_tables.now) id limit) p) }
{
    let Some(row) = row_tables.ranges().get(id) else {
        return Ok(Planned::Refused(Refusal::NotFound(Kind::Ranges, id)));
    };
    let pieces = given_pieces(row_tables, id, row)?;
    let found = usable_of_pieces(row_tables, pieces.as_slice(), row, limit)?;
    Ok(Planned::Read(Reply::Addrs {
        vrf: row.vrf,
        len: row.ends.len(),
        list: Addrs::of(found),
    }))
}

/// How much of a prefix that is no container hosts and the spans of marked ranges use.
fn used_of_prefix(row_tables: &RowTables, marked: &[Span], row: &Prefix) -> u8
    requires spans { AreSpansOf row_tables.now.ranges.rows (table_of row.now.vrf) row.now.block.family UtilizedRanges marked.now }
    requires mask { 1 ≤ row.now.block.len }
    requires unmarked { row.now.mark_utilized ≡ false }
    requires plain { is_container row.now.status ≡ false }
    ensures { result ≡ prefix_figure (state_of row_tables.now) row.now }
{
    let empty = Tree::new(row_tables.allocator(), row.block.family());
    let hosts = hosts_of_prefix(row_tables.addresses(), row, &empty);
    of_hosts(hosts, marked, row.block, row.is_pool)
}

/// How much of an existing prefix is used, in whole percent, if its addresses decide: it is no container and does not count
/// as full. The addresses that hosts or marked ranges have count, each once, of those that hosts can have.
pub fn hosts_figure(row_tables: &RowTables, row: &Prefix) -> u8
    requires lawful { IsLawful (state_of row_tables.now) }
    requires there { row_at prefix_id row_tables.now.prefixes.rows row.now.id ≡ Some row.now }
    requires unmarked { row.now.mark_utilized ≡ false }
    requires plain { is_container row.now.status ≡ false }
    ensures { result ≡ prefix_figure (state_of row_tables.now) row.now }
{
    let family = row.block.family();
    let marked = spans_of(row_tables, Table::of(row.vrf), family, SpanKind::Utilized);
    used_of_prefix(row_tables, marked, row)
}

/// How much of a range is used, in whole percent: all of it if it is marked, and else the addresses that hosts have, each once.
fn figure_of_range(row_tables: &RowTables, row: &IpRange) -> u8
    requires { IsRange row.now }
    ensures { result ≡ range_figure (state_of row_tables.now) row.now }
{
    if row.mark_utilized {
        return 100;
    }
    let empty = Tree::new(row_tables.allocator(), row.ends.start().family());
    let hosts = hosts_of_range(row_tables.addresses(), row, &empty);
    let span = Span {
        first: row.ends.start(),
        last: row.ends.end(),
    };
    of_range(hosts, span)
}

/// Reads how much of the range of an id is used.
pub fn plan_range_figure(row_tables: &RowTables, id: u32) -> Planned
    requires { IsLawful (state_of row_tables.now) }
    ensures { IsPlanned (figure_plan range_rules range_figure (state_of row_tables.now) id) result }
{
    match row_tables.ranges().get(id) {
        Some(row) => Planned::Read(Reply::Percent(figure_of_range(row_tables, row))),
        None => Planned::Refused(Refusal::NotFound(Kind::Ranges, id)),
    }
}
