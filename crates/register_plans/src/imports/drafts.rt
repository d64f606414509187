//! The drafts that the rows of an import represent, and the rules that rows break by themselves.

ghost use Rattle.std.specs.Prelude.{◌≡◌, None, IfOk};
ghost use Rattle.ipam_data.specs.declared.kinds.Kind.TheVariants.{Vrfs, Rirs, Roles, Aggregates, Prefixes, Ranges, Addresses};
ghost use Rattle.ipam_data.specs.Checks.{first};
ghost use Rattle.ipam_data.specs.Fields.{drafted, told_of_draft};
ghost use Rattle.ipam_data.specs.State.{State};
ghost use Rattle.ipam_data.specs.Imports.{draft_of, kind_of_row};
ghost use Rattle.register_tables.specs.Held.{state_of};
ghost use Rattle.register_plans.specs.ImportHalts.{fault_of, rule_of};

use crate::imports::names::{name_fault, rir_id_of, role_id_of, vrf_id_of};
use ipam_data::address::IpAddress;
use ipam_data::aggregate::Aggregate;
use ipam_data::calls::Draft;
use ipam_data::imports::ImportRow;
use ipam_data::kinds::Kind;
use ipam_data::prefix::Prefix;
use ipam_data::range::IpRange;
use ipam_data::replies::{Refusal, Rule, View};
use ipam_data::rir::Rir;
use ipam_data::role::Role;
use ipam_data::vrf::{Vrf, copy_distinguisher};
use register_tables::RowTables;
use std::alloc::AllocError;

/// The draft that a row of a VRF represents.
fn vrf_draft(row: &ImportRow) -> Result<Draft, AllocError>
    requires { kind_of_row row.now ≡ Vrfs }
    ensures { (s : State) → IfOk result (λ d. d ≡ draft_of s row.now) }
{
    match row {
        ImportRow::Vrf {
            name,
            rd,
            enforce_unique,
            description,
        } => Ok(Draft::Vrf {
            name: name.copy()?,
            rd: copy_distinguisher(rd)?,
            enforce_unique: *enforce_unique,
            description: description.copy()?,
        }),
        _ => unreachable!(),
    }
}

/// The draft that a row of a RIR represents.
fn rir_draft(row: &ImportRow) -> Result<Draft, AllocError>
    requires { kind_of_row row.now ≡ Rirs }
    ensures { (s : State) → IfOk result (λ d. d ≡ draft_of s row.now) }
{
    match row {
        ImportRow::Rir {
            name,
            slug,
            is_private,
            description,
        } => Ok(Draft::Rir {
            name: name.copy()?,
            slug: slug.copy()?,
            is_private: *is_private,
            description: description.copy()?,
        }),
        _ => unreachable!(),
    }
}

/// The draft that a row of a role represents.
fn role_draft(row: &ImportRow) -> Result<Draft, AllocError>
    requires { kind_of_row row.now ≡ Roles }
    ensures { (s : State) → IfOk result (λ d. d ≡ draft_of s row.now) }
{
    match row {
        ImportRow::Role {
            name,
            slug,
            weight,
            description,
        } => Ok(Draft::Role {
            name: name.copy()?,
            slug: slug.copy()?,
            weight: *weight,
            description: description.copy()?,
        }),
        _ => unreachable!(),
    }
}

/// The draft that a row of an aggregate represents.
fn aggregate_draft(row_tables: &RowTables, row: &ImportRow) -> Result<Draft, AllocError>
    requires { kind_of_row row.now ≡ Aggregates }
    ensures { IfOk result (λ d. d ≡ draft_of (state_of row_tables.now) row.now) }
{
    match row {
        ImportRow::Aggregate {
            block,
            rir,
            description,
        } => Ok(Draft::Aggregate {
            block: *block,
            rir: rir_id_of(row_tables, rir),
            description: description.copy()?,
        }),
        _ => unreachable!(),
    }
}

/// The draft that a row of a prefix represents.
fn prefix_draft(row_tables: &RowTables, row: &ImportRow) -> Result<Draft, AllocError>
    requires { kind_of_row row.now ≡ Prefixes }
    ensures { IfOk result (λ d. d ≡ draft_of (state_of row_tables.now) row.now) }
{
    match row {
        ImportRow::Prefix {
            block,
            vrf,
            status,
            role,
            is_pool,
            mark_utilized,
            description,
        } => Ok(Draft::Prefix {
            block: *block,
            vrf: vrf_id_of(row_tables, vrf),
            status: *status,
            role: role_id_of(row_tables, role),
            is_pool: *is_pool,
            mark_utilized: *mark_utilized,
            description: description.copy()?,
        }),
        _ => unreachable!(),
    }
}

/// The draft that a row of a range represents.
fn range_draft(row_tables: &RowTables, row: &ImportRow) -> Result<Draft, AllocError>
    requires { kind_of_row row.now ≡ Ranges }
    ensures { IfOk result (λ d. d ≡ draft_of (state_of row_tables.now) row.now) }
{
    match row {
        ImportRow::IpRange {
            start,
            end,
            vrf,
            status,
            role,
            mark_utilized,
            mark_populated,
            description,
        } => Ok(Draft::IpRange {
            start: *start,
            end: *end,
            vrf: vrf_id_of(row_tables, vrf),
            status: *status,
            role: role_id_of(row_tables, role),
            mark_utilized: *mark_utilized,
            mark_populated: *mark_populated,
            description: description.copy()?,
        }),
        _ => unreachable!(),
    }
}

/// The draft that a row of an address represents.
fn address_draft(row_tables: &RowTables, row: &ImportRow) -> Result<Draft, AllocError>
    requires { kind_of_row row.now ≡ Addresses }
    ensures { IfOk result (λ d. d ≡ draft_of (state_of row_tables.now) row.now) }
{
    match row {
        ImportRow::IpAddress {
            host,
            vrf,
            status,
            role,
            dns_name,
            description,
        } => Ok(Draft::IpAddress {
            host: *host,
            vrf: vrf_id_of(row_tables, vrf),
            status: *status,
            role: *role,
            dns_name: dns_name.copy()?,
            description: description.copy()?,
        }),
        _ => unreachable!(),
    }
}

/// The draft that a row represents.
pub(crate) fn draft(row_tables: &RowTables, row: &ImportRow) -> Result<Draft, AllocError>
    ensures { IfOk result (λ d. d ≡ draft_of (state_of row_tables.now) row.now) }
{
    match row {
        ImportRow::Vrf { .. } => vrf_draft(row),
        ImportRow::Rir { .. } => rir_draft(row),
        ImportRow::Role { .. } => role_draft(row),
        ImportRow::Aggregate { .. } => aggregate_draft(row_tables, row),
        ImportRow::Prefix { .. } => prefix_draft(row_tables, row),
        ImportRow::IpRange { .. } => range_draft(row_tables, row),
        ImportRow::IpAddress { .. } => address_draft(row_tables, row),
    }
}

/// The row that a draft makes under an id.
pub(crate) fn view_under(id: u32, draft: &Draft) -> Result<View, AllocError>
    requires { first (told_of_draft draft.now) ≡ None }
    ensures { IfOk result (λ v. v ≡ drafted id draft.now) }
{
    match draft {
        Draft::Vrf { .. } => Ok(View::Vrf(Vrf::drafted(id, draft)?)),
        Draft::Rir { .. } => Ok(View::Rir(Rir::drafted(id, draft)?)),
        Draft::Role { .. } => Ok(View::Role(Role::drafted(id, draft)?)),
        Draft::Aggregate { .. } => Ok(View::Aggregate(Aggregate::drafted(id, draft)?)),
        Draft::Prefix { .. } => Ok(View::Prefix {
            row: Prefix::drafted(id, draft)?,
            depth: 0,
            children: 0,
        }),
        Draft::IpRange { .. } => Ok(View::IpRange(IpRange::drafted(id, draft)?)),
        Draft::IpAddress { .. } => Ok(View::IpAddress(IpAddress::drafted(id, draft)?)),
    }
}

/// The first rule that a row breaks by its names or its values.
fn rule_broken(row_tables: &RowTables, row: &ImportRow) -> Option<Rule>
    ensures { result ≡ rule_of (state_of row_tables.now) row.now }
{
    match name_fault(row_tables, row) {
        Some(rule) => Some(rule),
        None => row.value_fault(),
    }
}

/// Why a row is refused by itself, if so: it is of another kind, or breaks a rule by its names or its values.
pub(crate) fn fault(row_tables: &RowTables, kind: Kind, row: &ImportRow) -> Option<Refusal>
    ensures { result ≡ fault_of (state_of row_tables.now) kind row.now }
{
    match row.kind_fault(kind) {
        Some(refusal) => Some(refusal),
        None => match rule_broken(row_tables, row) {
            Some(rule) => Some(Refusal::Rule(rule)),
            None => None,
        },
    }
}
