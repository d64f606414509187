//! The records that the rows of an import name, looked up by their names.

ghost use Rattle.std.specs.Prelude.{◌≡◌, ◌∷◌, [], find, bytes_eq, option_copied};
ghost use Rattle.ipam_data.specs.declared.kinds.Kind.TheVariants.{Rirs};
ghost use Rattle.ipam_data.specs.declared.role.Role.{Role};
ghost use Rattle.ipam_data.specs.declared.rir.Rir.{Rir};
ghost use Rattle.ipam_data.specs.Checks.{first};
ghost use Rattle.ipam_data.specs.Imports.{vrf_named, role_named, role_named_too, rir_named, one_of, vrf_rule, named_rule, role_rule, id_or_none, name_rules};
ghost use Rattle.register_tables.specs.Held.{state_of};

use ipam_data::imports::ImportRow;
use ipam_data::kinds::Kind;
use ipam_data::replies::Rule;
use ipam_data::rir::Rir;
use ipam_data::role::Role;
use ipam_data::text::Name;
use register_tables::RowTables;
use vrf_table::VrfRules;

/// The least id of a VRF with the name that is given.
pub(crate) fn vrf_id_of(row_tables: &RowTables, name: &Option<Name>) -> Option<u32>
    ensures { result ≡ vrf_named row_tables.now.vrfs.rows name.now }
{
    match name {
        Some(name) => row_tables.vrfs().named(name).0,
        None => None,
    }
}

/// Whether a role has the name.
fn is_role_named(row: &Role, name: &Name) -> bool
    ensures { result ≡ bytes_eq row.now.name name.now }
{
    row.name.as_str() == name.as_str()
}

/// The first role with the name.
fn role_of<'a>(rows: &'a [Role], name: &Name) -> Option<&'a Role>
    ensures { option_copied result ≡ find (λ (row : Role). bytes_eq row.name name.now) rows.now }
{
    rows.iter().find(|row| is_role_named(row, name))
}

/// The id of the role with the name.
fn role_with(row_tables: &RowTables, name: &Name) -> Option<u32>
    ensures { result ≡ role_named row_tables.now.roles.rows name.now }
{
    match role_of(row_tables.roles().rows(), name) {
        Some(row) => Some(row.id),
        None => None,
    }
}

/// The id of the role with the name that is given.
pub(crate) fn role_id_of(row_tables: &RowTables, name: &Option<Name>) -> Option<u32>
    ensures { result ≡ role_named_too row_tables.now.roles.rows name.now }
{
    match name {
        Some(name) => role_with(row_tables, name),
        None => None,
    }
}

/// Whether a RIR has the name.
fn is_rir_named(row: &Rir, name: &Name) -> bool
    ensures { result ≡ bytes_eq row.now.name name.now }
{
    row.name.as_str() == name.as_str()
}

/// The first RIR with the name.
fn rir_of<'a>(rows: &'a [Rir], name: &Name) -> Option<&'a Rir>
    ensures { option_copied result ≡ find (λ (row : Rir). bytes_eq row.name name.now) rows.now }
{
    rows.iter().find(|row| is_rir_named(row, name))
}

/// The id of the RIR with the name.
fn rir_with(row_tables: &RowTables, name: &Name) -> Option<u32>
    ensures { result ≡ rir_named row_tables.now.rirs.rows name.now }
{
    match rir_of(row_tables.rirs().rows(), name) {
        Some(row) => Some(row.id),
        None => None,
    }
}

/// The id of the RIR with the name, or 0.
pub(crate) fn rir_id_of(row_tables: &RowTables, name: &Name) -> u32
    ensures { result ≡ id_or_none (rir_named row_tables.now.rirs.rows name.now) }
{
    match rir_with(row_tables, name) {
        Some(id) => id,
        None => 0,
    }
}

/// The rule that the ids of the VRFs with one name break.
fn one_fault(first: Option<u32>, second: Option<u32>) -> Option<Rule>
    ensures { result ≡ one_of (first, second) }
{
    match (first, second) {
        (None, _) => Some(Rule::NoSuchName(Kind::Vrfs)),
        (Some(_), None) => None,
        (Some(one), Some(other)) => Some(Rule::Ambiguous(one, other)),
    }
}

/// The rule that the name of a VRF breaks.
fn vrf_fault(row_tables: &RowTables, name: &Option<Name>) -> Option<Rule>
    ensures { result ≡ vrf_rule row_tables.now.vrfs.rows name.now }
{
    match name {
        Some(name) => {
            let (one, other) = row_tables.vrfs().named(name);
            one_fault(one, other)
        }
        None => None,
    }
}

/// The rule that the name of a role breaks.
fn role_fault(row_tables: &RowTables, name: &Option<Name>) -> Option<Rule>
    ensures { result ≡ role_rule row_tables.now.roles.rows name.now }
{
    match name {
        Some(given) => match role_of(row_tables.roles().rows(), given) {
            Some(_) => None,
            None => Some(Rule::NoSuchName(Kind::Roles)),
        },
        None => None,
    }
}

/// The rule that the name of a RIR breaks.
fn rir_fault(row_tables: &RowTables, name: &Name) -> Option<Rule>
    ensures { result ≡ named_rule Rirs (rir_named row_tables.now.rirs.rows name.now) }
{
    match rir_with(row_tables, name) {
        Some(_) => None,
        None => Some(Rule::NoSuchName(Kind::Rirs)),
    }
}

/// The first rule that the names of a VRF and a role break.
fn table_fault(row_tables: &RowTables, vrf: &Option<Name>, role: &Option<Name>) -> Option<Rule>
    ensures { result ≡ first (vrf_rule row_tables.now.vrfs.rows vrf.now ∷ role_rule row_tables.now.roles.rows role.now ∷ []) }
{
    match vrf_fault(row_tables, vrf) {
        Some(rule) => Some(rule),
        None => role_fault(row_tables, role),
    }
}

/// The first rule that the names of a row break.
pub(crate) fn name_fault(row_tables: &RowTables, row: &ImportRow) -> Option<Rule>
    ensures { result ≡ first (name_rules (state_of row_tables.now) row.now) }
{
    match row {
        ImportRow::Vrf { .. } | ImportRow::Rir { .. } | ImportRow::Role { .. } => None,
        ImportRow::Aggregate { rir, .. } => rir_fault(row_tables, rir),
        ImportRow::Prefix { vrf, role, .. } => table_fault(row_tables, vrf, role),
        ImportRow::IpRange { vrf, role, .. } => table_fault(row_tables, vrf, role),
        ImportRow::IpAddress { vrf, .. } => vrf_fault(row_tables, vrf),
    }
}
