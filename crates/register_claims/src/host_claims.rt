//! Claims of addresses: each item gets the lowest address of a prefix or a range that can be given out, or none gets any.

ghost use Rattle.std.specs.Prelude.{◌≡◌, ℕ, ◌+◌, ◌^◌, ◌<◌, ◌≤◌, ◌∷◌, [], None, List, length, map, IfOk};
ghost use Rattle.std.specs.List.{AllByRecursion, flat_map};
ghost use Rattle.inet_num.specs.declared.Family.{Family};
ghost use Rattle.inet_num.specs.Net.{width_of};
ghost use Rattle.inet_num.specs.Count.{addresses_of};
ghost use Rattle.block_space.specs.Usable.{addressed};
ghost use Rattle.block_claim.specs.Claims.{IsServed};
ghost use Rattle.ipam_data.specs.declared.kinds.Kind.TheVariants.{Addresses as AddressKind};
ghost use Rattle.ipam_data.specs.declared.replies.Which.TheVariants.{Claims as ClaimItems};
ghost use Rattle.ipam_data.specs.declared.replies.View.TheVariants.{IpAddress as AddressView};
ghost use Rattle.ipam_data.specs.Checks.{first, too_many};
ghost use Rattle.ipam_data.specs.RowList.{last_next};
ghost use Rattle.ipam_data.specs.Tables.{table_of};
ghost use Rattle.ipam_data.specs.Plans.{no_place};
ghost use Rattle.ipam_data.specs.Addresses.{address_rules, is_slaac_of_v4};
ghost use Rattle.ipam_data.specs.Lawful.{IsLawful};
ghost use Rattle.register_tables.specs.Held.{state_of};
ghost use Rattle.register_tables.specs.Planned.{IsPlanned};
ghost use Rattle.ipam_data.specs.Claims.{most_items, told_of_address, claimed_addresses, served, usable_in, usable_of_range, claim_addresses_of, claim_prefix_addrs_plan, claim_range_addrs_plan};
ghost use Rattle.ip_ranges.specs.declared.SpanKind.TheVariants.{Populated as PopulatedRanges};
ghost use Rattle.ip_ranges.specs.Spans.{AreSpansOf};
ghost use Rattle.register_claims.specs.Hosts.{given_numbers};

use crate::checks::{changed, no_place, served, stopped, too_many_items};
use crate::hosts::{claimed_of_prefix, claimed_of_range};
use crate::ranges::{given_pieces, spans_of};
use block_claim::ClaimFault;
use inet_num::{Addr, Block, Family, Span};
use ip_ranges::SpanKind;
use ipam_data::address::{AddressStatus, IpAddress, MOST_ADDRESSES};
use ipam_data::calls::{AddrItem, Answered};
use ipam_data::host::Host;
use ipam_data::host_names::is_dns_name;
use ipam_data::kinds::{Kind, Table};
use ipam_data::prefix::Prefix;
use ipam_data::range::IpRange;
use ipam_data::replies::{Refusal, Rule, View};
use placed_book::Book;
use register_tables::{Planned, RowTables};
use std::alloc::{AllocError, Global};

// ---- what is said of the items

/// Whether an address of IPv4 is said to be made by SLAAC.
fn is_slaac_of_ipv4(status: AddressStatus, family: Family) -> bool
    ensures { result ≡ is_slaac_of_v4 status family }
{
    match (status, family) {
        (AddressStatus::Slaac, Family::V4) => true,
        _ => false,
    }
}

/// Why an item can't be served by what it says, if so. `Err` means out of memory.
fn fault_of_item(item: &AddrItem, family: Family) -> Result<Option<Refusal>, AllocError>
    ensures { IfOk result (λ r. r ≡ first (told_of_address family item.now)) }
{
    if is_slaac_of_ipv4(item.status, family) {
        return Ok(Some(Refusal::Rule(Rule::SlaacFamily)));
    }
    let dns_name = item.dns_name.lowered()?;
    if !is_dns_name(dns_name.as_str().as_bytes()) {
        return Ok(Some(Refusal::Rule(Rule::DnsName)));
    }
    Ok(None)
}

/// The same of the first item that can't. `Err` means out of memory.
fn fault_of_items(items: &[AddrItem], family: Family) -> Result<Option<Refusal>, AllocError>
    ensures { IfOk result (λ r. r ≡ first (flat_map (told_of_address family) items.now)) }
{
    'items: for item in items {
        let fault = fault_of_item(item, family)?;
        if fault.is_some() {
            return Ok(fault);
        }
    }
    Ok(None)
}

/// Why a claim can't be served by what its items say, if so: there are too many of them, or one of them is at fault. `Err` means out
/// of memory.
fn fault_of_claim(items: &[AddrItem], family: Family) -> Result<Option<Refusal>, AllocError>
    ensures { IfOk result (λ r. r ≡ first (too_many ClaimItems most_items (length items.now) ∷ flat_map (told_of_address family) items.now)) }
{
    if let Some(refusal) = too_many_items(items.len()) {
        return Ok(Some(refusal));
    }
    fault_of_items(items, family)
}

// ---- the rows that the items get

/// An address with a mask that fits it.
fn masked(addr: Addr, len: u8) -> Host
    requires { len ≤ width_of addr.family }
    ensures { result ≡ record { addr = addr; len = len } }
{
    match Host::of(addr, len) {
        Some(host) => host,
        None => unreachable!(),
    }
}

/// The row that an item gets under an id. `Err` means out of memory.
fn claimed_row(
    item: &AddrItem,
    host: Host,
    vrf: Option<u32>,
    id: u32,
) -> Result<IpAddress, AllocError>
    ensures { IfOk result (λ row. row ∷ [] ≡ claimed_addresses vrf host.len id (item.now ∷ []) (host.addr ∷ [])) }
{
    let dns_name = item.dns_name.lowered()?;
    let description = item.description.copy()?;
    Ok(IpAddress {
        id,
        host,
        vrf,
        status: item.status,
        role: item.role,
        dns_name,
        description,
    })
}

/// The rows that items get, each the next address, under ids from one on. `Err` means out of memory.
fn claimed_rows(
    alloc: Global,
    items: &[AddrItem],
    found: &[Addr],
    vrf: Option<u32>,
    len: u8,
    next: u32,
) -> Result<Vec<View>, AllocError>
    requires count { length found.now ≡ length items.now }
    requires mask { AllByRecursion (λ a. len ≤ width_of a.family) found.now }
    requires ids { next + length items.now < 2 ^ 32 }
    ensures { IfOk result (λ v. v.items ≡ map AddressView (claimed_addresses vrf len next items.now found.now)) }
{
    let mut views = Vec::new(alloc);
    'items: for index in 0..items.len() {
        let host = masked(found[index], len);
        let row = claimed_row(&items[index], host, vrf, next + index as u32)?;
        views.push(View::IpAddress(row))?;
    }
    Ok(views)
}

/// What is done and answered if the items get these addresses. `Err` means out of memory.
fn made(
    row_tables: &RowTables,
    answered: Answered,
    items: &[AddrItem],
    found: &[Addr],
    vrf: Option<u32>,
    len: u8,
) -> Result<Planned, AllocError>
    requires count { length found.now ≡ length items.now }
    requires mask { AllByRecursion (λ a. len ≤ width_of a.family) found.now }
    requires ids { row_tables.now.next_address + length items.now ≤ last_next }
    ensures { IfOk result (λ p. let views = map AddressView (claimed_addresses vrf len row_tables.now.next_address items.now found.now) in p ≡ Planned.Change (record { puts = views; cuts = []; next = (AddressKind, row_tables.now.next_address + length items.now) ∷ []; spent = length items.now }) (served answered views)) }
{
    let alloc = row_tables.allocator();
    let next = row_tables.next(Kind::Addresses);
    let wanted = items.len() as u32;
    let puts = claimed_rows(alloc, items, found, vrf, len, next)?;
    let again = claimed_rows(alloc, items, found, vrf, len, next)?;
    let reply = served(answered, again);
    changed(alloc, puts, Kind::Addresses, next + wanted, wanted, reply)
}

/// Plans a claim of which nothing is said and whose items get these addresses. `Err` means out of memory.
fn plan_served(
    row_tables: &RowTables,
    answered: Answered,
    items: &[AddrItem],
    found: &[Addr],
    vrf: Option<u32>,
    len: u8,
    family: Family,
) -> Result<Planned, AllocError>
    requires told { first (too_many ClaimItems most_items (length items.now) ∷ flat_map (told_of_address family) items.now) ≡ None }
    requires count { length found.now ≡ length items.now }
    requires mask { AllByRecursion (λ a. len ≤ width_of a.family) found.now }
    ensures { IfOk result (λ p. (usable : List ℕ) → IsServed (length items.now) (addressed family usable) found.now → IsPlanned (claim_addresses_of (state_of row_tables.now) answered items.now vrf len family usable) p) }
{
    let wanted = items.len() as u32;
    let next = row_tables.next(Kind::Addresses);
    let count = row_tables.addresses().len();
    match no_place(
        Kind::Addresses,
        MOST_ADDRESSES,
        count,
        next,
        row_tables.spent(),
        wanted,
    ) {
        Some(refusal) => Ok(Planned::Refused(refusal)),
        None => made(row_tables, answered, items, found, vrf, len),
    }
}

// ---- the calls

/// Plans a claim in an existing prefix, given the spans of the populated ranges of its table. `Err` means out of memory.
fn claim_in_prefix(
    row_tables: &RowTables,
    answered: Answered,
    items: &[AddrItem],
    held: &[Span],
    row: &Prefix,
) -> Result<Planned, AllocError>
    requires { AreSpansOf row_tables.now.ranges.rows (table_of row.now.vrf) row.now.block.family PopulatedRanges held.now }
    ensures { IfOk result (λ p. IsPlanned (claim_addresses_of (state_of row_tables.now) answered items.now row.now.vrf row.now.block.len row.now.block.family (usable_in (state_of row_tables.now) row.now)) p) }
{
    let family = row.block.family();
    let len = row.block.len();
    let fault = fault_of_claim(items, family)?;
    match fault {
        Some(refusal) => return Ok(Planned::Refused(refusal)),
        None => {}
    }
    match claimed_of_prefix(row_tables, held, row, items.len() as u32) {
        Ok(found) => plan_served(
            row_tables,
            answered,
            items,
            found.as_slice(),
            row.vrf,
            len,
            family,
        ),
        Err(fault) => stopped(fault),
    }
}

/// Plans a claim in an existing range, given by its pieces. `Err` means out of memory.
fn claim_in_range(
    row_tables: &RowTables,
    answered: Answered,
    items: &[AddrItem],
    pieces: &[Block],
    row: &IpRange,
) -> Result<Planned, AllocError>
    requires numbers { flat_map addresses_of pieces.now ≡ given_numbers row.now }
    requires family { AllByRecursion (λ b. b.family ≡ row.now.ends.start.family) pieces.now }
    ensures { IfOk result (λ p. IsPlanned (claim_addresses_of (state_of row_tables.now) answered items.now row.now.vrf row.now.ends.len row.now.ends.start.family (usable_of_range (state_of row_tables.now) row.now)) p) }
{
    let start = row.ends.start();
    let family = start.family();
    let len = row.ends.len();
    let fault = fault_of_claim(items, family)?;
    match fault {
        Some(refusal) => return Ok(Planned::Refused(refusal)),
        None => {}
    }
    match claimed_of_range(row_tables, pieces, row, items.len() as u32) {
        Ok(found) => plan_served(
            row_tables,
            answered,
            items,
            found.as_slice(),
            row.vrf,
            len,
            family,
        ),
        Err(fault) => stopped(fault),
    }
}

/// Plans a claim of addresses of the prefix of an id: each item gets the lowest usable one, the first item the first. It was given
/// as one item or as a list, and is answered so. `Err` means out of memory.
pub fn plan_claim_prefix_addrs(
    row_tables: &RowTables,
    id: u32,
    answered: Answered,
    items: &[AddrItem],
) -> Result<Planned, AllocError>
    requires { IsLawful (state_of row_tables.now) }
    ensures { IfOk result (λ p. IsPlanned (claim_prefix_addrs_plan (state_of row_tables.now) id answered items.now) p) }
{
    let Some(row) = row_tables.prefixes().get(id) else {
        return Ok(Planned::Refused(Refusal::NotFound(Kind::Prefixes, id)));
    };
    let family = row.block.family();
    let held = spans_of(row_tables, Table::of(row.vrf), family, SpanKind::Populated);
    claim_in_prefix(row_tables, answered, items, held, row)
}

/// Plans a claim of addresses of the range of an id: each item gets the lowest one that no host has. `Err` means out of memory.
pub fn plan_claim_range_addrs(
    row_tables: &RowTables,
    id: u32,
    answered: Answered,
    items: &[AddrItem],
) -> Result<Planned, AllocError>
    requires { IsLawful (state_of row_tables.now) }
    ensures { IfOk result (λ p. IsPlanned (claim_range_addrs_plan (state_of row_tables.now) id answered items.now) p) }
{
    let Some(row) = row_tables.ranges().get(id) else {
        return Ok(Planned::Refused(Refusal::NotFound(Kind::Ranges, id)));
    };
    let pieces = given_pieces(row_tables, id, row)?;
    claim_in_range(row_tables, answered, items, pieces.as_slice(), row)
}
