//! The passes over stored tables that are opened, each over all rows before the next begins.

ghost use Rattle.std.specs.Prelude.{◌≡◌, ◌↔◌, ℕ, ◌+◌, ◌<◌, ◌≤◌, ◌==◌, ◌++◌, IfOk, OnOk, IsSome, Some, None, [], find, fold, map, count_by, take, reverse, length, vec_len};
ghost use Rattle.std.specs.Option.{option_to_list};
ghost use Rattle.std.specs.List.{list_any};
ghost use Rattle.ipam_data.specs.Updates.{with_view, AreFit};
ghost use Rattle.stored_tables.specs.Stored.{kinds, stored_row};
ghost use Rattle.stored_tables.specs.Opening.{breach_of, first_breach, told_next, bare_state, most_of, is_of_kind, is_overfull, is_past, is_bad_next, AreNextIds};
ghost use Rattle.register_tables.specs.Held.{state_of};
ghost use Rattle.register_core.specs.Opened.{AreRead};

use ipam_data::address::MOST_ADDRESSES;
use ipam_data::aggregate::MOST_AGGREGATES;
use ipam_data::kinds::{Kind, is_one_kind};
use ipam_data::prefix::MOST_PREFIXES;
use ipam_data::range::MOST_RANGES;
use ipam_data::replies::View;
use ipam_data::rir::MOST_RIRS;
use ipam_data::role::MOST_ROLES;
use ipam_data::vrf::MOST_VRFS;
use register_plans::broken_by_view;
use register_tables::RowTables;
use std::alloc::{AllocError, Global};
use stored_tables::opening::Breach;
use stored_tables::reading::read_row;
use stored_tables::tables::Row;

// ---- the rows are read

/// Reads rows into views, up to the first that can't be read; its kind and id are handed out. `Err` means out of memory.
pub(crate) fn read_all(
    alloc: Global,
    rows: &[Row],
    views: &mut Vec<View>,
) -> Result<Option<(Kind, u32)>, AllocError>
    requires { views.old.items ≡ [] }
    ensures { IfOk result (λ unread. AreRead rows.now views.new.items unread) }
{
    for row in rows {
        match read_row(alloc, row)? {
            Some(view) => views.push(view)?,
            None => return Ok(Some((row.kind, row.id))),
        }
    }
    Ok(None)
}

// ---- no kind has too many

/// How many rows of a kind there may be.
pub(crate) fn most_of(kind: Kind) -> u32
    ensures { result ≡ most_of kind }
{
    match kind {
        Kind::Vrfs => MOST_VRFS,
        Kind::Rirs => MOST_RIRS,
        Kind::Roles => MOST_ROLES,
        Kind::Aggregates => MOST_AGGREGATES,
        Kind::Prefixes => MOST_PREFIXES,
        Kind::Ranges => MOST_RANGES,
        Kind::Addresses => MOST_ADDRESSES,
    }
}

/// Whether a row is of a kind.
fn is_of_kind(kind: Kind, row: &Row) -> bool
    ensures { result ≡ is_of_kind kind row.now }
{
    is_one_kind(row.kind, kind)
}

/// Whether there are more rows of a kind than there may be.
fn is_overfull(rows: &[Row], kind: Kind) -> bool
    ensures { result ≡ is_overfull rows.now kind }
{
    let count = rows.iter().filter(|row| is_of_kind(kind, row)).count();
    count > most_of(kind) as usize
}

/// The first kind of which there are more rows than there may be.
pub(crate) fn first_overfull(rows: &[Row]) -> Option<Kind>
    ensures { result ≡ find (is_overfull rows.now) kinds }
{
    if is_overfull(rows, Kind::Vrfs) {
        return Some(Kind::Vrfs);
    }
    if is_overfull(rows, Kind::Rirs) {
        return Some(Kind::Rirs);
    }
    if is_overfull(rows, Kind::Roles) {
        return Some(Kind::Roles);
    }
    if is_overfull(rows, Kind::Aggregates) {
        return Some(Kind::Aggregates);
    }
    if is_overfull(rows, Kind::Prefixes) {
        return Some(Kind::Prefixes);
    }
    if is_overfull(rows, Kind::Ranges) {
        return Some(Kind::Ranges);
    }
    if is_overfull(rows, Kind::Addresses) {
        return Some(Kind::Addresses);
    }
    None
}

// ---- no row breaks a rule

/// The given next id of a kind, or 0.
fn told_next(nexts: &[(Kind, u32)], kind: Kind) -> u32
    ensures { result ≡ told_next nexts.now kind }
{
    for next in nexts {
        if is_one_kind(next.0, kind) {
            return next.1;
        }
    }
    0
}

/// RowTables without rows, with the given next ids. It takes no memory.
pub(crate) fn bare(alloc: Global, nexts: &[(Kind, u32)], global_unique: bool) -> RowTables
    ensures state { state_of result ≡ bare_state nexts.now global_unique }
    ensures nexts { AreNextIds nexts.now }
{
    let mut row_tables = RowTables::new(alloc, global_unique);
    row_tables.set_next(Kind::Vrfs, told_next(nexts, Kind::Vrfs));
    row_tables.set_next(Kind::Rirs, told_next(nexts, Kind::Rirs));
    row_tables.set_next(Kind::Roles, told_next(nexts, Kind::Roles));
    row_tables.set_next(Kind::Aggregates, told_next(nexts, Kind::Aggregates));
    row_tables.set_next(Kind::Prefixes, told_next(nexts, Kind::Prefixes));
    row_tables.set_next(Kind::Ranges, told_next(nexts, Kind::Ranges));
    row_tables.set_next(Kind::Addresses, told_next(nexts, Kind::Addresses));
    row_tables
}

/// The kind of a row, and its id.
fn place_of(view: &View) -> (Kind, u32)
    ensures { result ≡ ((stored_row view.now).kind, (stored_row view.now).id) }
{
    match view {
        View::Vrf(row) => (Kind::Vrfs, row.id),
        View::Rir(row) => (Kind::Rirs, row.id),
        View::Role(row) => (Kind::Roles, row.id),
        View::Aggregate(row) => (Kind::Aggregates, row.id),
        View::Prefix {
            row,
            depth: _,
            children: _,
        } => (Kind::Prefixes, row.id),
        View::IpRange(row) => (Kind::Ranges, row.id),
        View::IpAddress(row) => (Kind::Addresses, row.id),
    }
}

/// The breach of a row, given the existing rows.
fn breach_of(row_tables: &RowTables, view: &View) -> Option<Breach>
    ensures { result ≡ breach_of (state_of row_tables.now) view.now }
{
    match broken_by_view(row_tables, view) {
        Some(rule) => {
            let place = place_of(view);
            Some(Breach {
                kind: place.0,
                id: place.1,
                rule,
            })
        }
        None => None,
    }
}

/// Takes the first of views that are in reverse. Half of their room is given back each time that it is empty.
fn take_first(reversed: &mut Vec<View>) -> Option<View>
    ensures items { reverse reversed.old.items ≡ option_to_list result ++ reverse reversed.new.items }
    ensures variant { IsSome result ↔ (0 < vec_len reversed.old) }
    ensures len { vec_len reversed.new + length (option_to_list result) ≡ vec_len reversed.old }
{
    let first = reversed.pop();
    if reversed.len() <= reversed.capacity() / 2 {
        reversed.shrink_to_fit();
    }
    first
}

/// Puts rows one after another, as far as each breaks no rule given those that are before it; the first that breaks one is
/// reported. A view is gone as soon as its row is put, so that views and rows do not fill the memory of both. `Err` means out of memory.
pub(crate) fn fill(
    row_tables: &mut RowTables,
    views: Vec<View>,
) -> Result<Option<Breach>, AllocError>
    requires { AreFit (state_of row_tables.old) views.items }
    ensures breach { IfOk result (λ b. first_breach (state_of row_tables.old) views.items ≡ b) }
    ensures state { IfOk result (λ b. b ≡ None → state_of row_tables.new ≡ fold with_view (state_of row_tables.old) views.items) }
{
    let mut rest = views;
    rest.reverse();
    while let Some(view) = take_first(&mut rest) {
        match breach_of(row_tables, &view) {
            Some(breach) => {
                drop(view);
                return Ok(Some(breach));
            }
            None => {}
        }
        row_tables.admit(view)?;
    }
    Ok(None)
}

// ---- each next id is above all ids of its kind

/// Whether a row is of a kind, and its id not below this one.
fn is_past(kind: Kind, next: u32, row: &Row) -> bool
    ensures { result ≡ is_past kind next row.now }
{
    is_of_kind(kind, row) && row.id >= next
}

/// Whether any row is of a kind, and its id not below this one.
fn any_past(rows: &[Row], kind: Kind, next: u32) -> bool
    ensures { result ≡ list_any (is_past kind next) rows.now }
{
    rows.iter().any(|row| is_past(kind, next, row))
}

/// Whether the next id of a kind is absent or 0, or not above all ids of the kind.
fn is_bad_next(nexts: &[(Kind, u32)], rows: &[Row], kind: Kind) -> bool
    ensures { result ≡ is_bad_next nexts.now rows.now kind }
{
    let next = told_next(nexts, kind);
    if next == 0 {
        return true;
    }
    any_past(rows, kind, next)
}

/// The first kind whose next id is absent or 0, or not above all ids of the kind.
pub(crate) fn first_bad_next(nexts: &[(Kind, u32)], rows: &[Row]) -> Option<Kind>
    ensures { result ≡ find (is_bad_next nexts.now rows.now) kinds }
{
    if is_bad_next(nexts, rows, Kind::Vrfs) {
        return Some(Kind::Vrfs);
    }
    if is_bad_next(nexts, rows, Kind::Rirs) {
        return Some(Kind::Rirs);
    }
    if is_bad_next(nexts, rows, Kind::Roles) {
        return Some(Kind::Roles);
    }
    if is_bad_next(nexts, rows, Kind::Aggregates) {
        return Some(Kind::Aggregates);
    }
    if is_bad_next(nexts, rows, Kind::Prefixes) {
        return Some(Kind::Prefixes);
    }
    if is_bad_next(nexts, rows, Kind::Ranges) {
        return Some(Kind::Ranges);
    }
    if is_bad_next(nexts, rows, Kind::Addresses) {
        return Some(Kind::Addresses);
    }
    None
}
