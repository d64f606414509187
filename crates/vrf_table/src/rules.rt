//! What is asked of VRFs as a slice of rows.

ghost use Rattle.std.specs.Prelude.{◌≡◌, find, ◌&&◌, ◌==◌, not, option_copied, option_map, bytes_eq};
ghost use Rattle.std.specs.List.{list_any};
ghost use Rattle.ipam_data.specs.RowList.{least};
ghost use Rattle.ipam_data.specs.Vrfs.{vrf_id, vrf_fault, same_rd, is_rd_rival, is_enforcing, is_enforcing_vrf, has_name, has_name_too, ids_named};

use ipam_data::kinds::Table;
use ipam_data::replies::Rule;
use ipam_data::text::{Distinguisher, Name};
use ipam_data::vrf::Vrf;

/// Whether both have a route distinguisher, and the same one.
fn is_same_rd(a: &Option<Distinguisher>, b: &Option<Distinguisher>) -> bool
    ensures { result ≡ same_rd a.now b.now }
{
    match (a, b) {
        (Some(a), Some(b)) => a.as_str() == b.as_str(),
        _ => false,
    }
}

/// Whether the other row is another VRF with the row's route distinguisher.
fn is_rival(row: &Vrf, other: &Vrf) -> bool
    ensures { result ≡ is_rd_rival row.now other.now }
{
    other.id != row.id && is_same_rd(&other.rd, &row.rd)
}

/// The first such row.
fn rival<'a>(rows: &'a [Vrf], row: &Vrf) -> Option<&'a Vrf>
    ensures { option_copied result ≡ find (is_rd_rival row.now) rows.now }
{
    rows.iter().find(|other| is_rival(row, other))
}

/// The rule that a VRF breaks given the rows of other ids.
#[tactic(auto, unfolding(ipam_data::specs::Vrfs::vrf_fault))]
pub fn first_fault(rows: &[Vrf], row: &Vrf) -> Option<Rule>
    ensures { result ≡ vrf_fault rows.now row.now }
{
    match rival(rows, row) {
        Some(other) => Some(Rule::RdTaken(other.id)),
        None => None,
    }
}

/// Whether the row is the VRF of this id and enforces.
fn is_strict(row: &Vrf, id: u32) -> bool
    ensures { result ≡ is_enforcing_vrf id row.now }
{
    row.id == id && row.enforce_unique
}

/// Whether the VRF of this id exists and enforces.
fn is_strict_vrf(rows: &[Vrf], id: u32) -> bool
    ensures { result ≡ list_any (is_enforcing_vrf id) rows.now }
{
    rows.iter().any(|row| is_strict(row, id))
}

/// Whether a table may have each block once.
pub fn is_enforcing_table(rows: &[Vrf], table: Table, global_unique: bool) -> bool
    ensures { result ≡ is_enforcing global_unique rows.now table }
{
    match table {
        Table::Global => global_unique,
        Table::Of(id) => is_strict_vrf(rows, id),
    }
}

/// Whether the row has the name.
fn is_named(row: &Vrf, name: &Name) -> bool
    ensures { result ≡ has_name name.now row.now }
{
    row.name.as_str() == name.as_str()
}

/// The first row with the name.
fn first_row_named<'a>(rows: &'a [Vrf], name: &Name) -> Option<&'a Vrf>
    ensures { option_copied result ≡ find (has_name name.now) rows.now }
{
    rows.iter().find(|row| is_named(row, name))
}

/// The least id of a row with the name.
fn first_named(rows: &[Vrf], name: &Name) -> Option<u32>
    ensures { result ≡ least vrf_id (has_name name.now) rows.now }
{
    match first_row_named(rows, name) {
        Some(row) => Some(row.id),
        None => None,
    }
}

/// Whether the row has the name, and another id than the one that was found first.
fn is_named_too(row: &Vrf, name: &Name, one: Option<u32>) -> bool
    ensures { result ≡ has_name_too name.now one row.now }
{
    match one {
        Some(one) => row.id != one && is_named(row, name),
        None => false,
    }
}

/// The first such row.
fn second_row_named<'a>(rows: &'a [Vrf], name: &Name, one: Option<u32>) -> Option<&'a Vrf>
    ensures { option_copied result ≡ find (has_name_too name.now one) rows.now }
{
    rows.iter().find(|row| is_named_too(row, name, one))
}

/// The least id of such a row.
fn second_named(rows: &[Vrf], name: &Name, one: Option<u32>) -> Option<u32>
    ensures { result ≡ least vrf_id (has_name_too name.now one) rows.now }
{
    match second_row_named(rows, name, one) {
        Some(row) => Some(row.id),
        None => None,
    }
}

/// The two least ids of rows with the name.
#[tactic(auto, unfolding(ipam_data::specs::Vrfs::ids_named))]
pub fn two_named(rows: &[Vrf], name: &Name) -> (Option<u32>, Option<u32>)
    ensures { result ≡ ids_named rows.now name.now }
{
    let one = first_named(rows, name);
    let other = second_named(rows, name, one);
    (one, other)
}
