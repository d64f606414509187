//! The rows that a row names, if they do not exist.

ghost use Rattle.std.specs.Prelude.{◌≡◌, Some, is_some};
ghost use Rattle.ipam_data.specs.declared.kinds.Kind.TheVariants.{Vrfs, Rirs, Roles};
ghost use Rattle.ipam_data.specs.Checks.{no_such};
ghost use Rattle.ipam_data.specs.RowList.{row_at};
ghost use Rattle.ipam_data.specs.Rows.{vrf_id, rir_id, role_id};

use crate::RowTables;
use ipam_data::kinds::Kind;
use ipam_data::replies::Rule;
use placed_book::Book;

/// The VRF that is named, if it does not exist.
pub fn missing_vrf(row_tables: &RowTables, vrf: Option<u32>) -> Option<Rule>
    ensures { result ≡ no_such Vrfs (row_at vrf_id row_tables.now.vrfs.rows) vrf }
{
    match vrf {
        None => None,
        Some(id) => if row_tables.vrfs().get(id).is_some() {
            None
        } else {
            Some(Rule::NoSuch(Kind::Vrfs, id))
        },
    }
}

/// The role that is named, if it does not exist.
pub fn missing_role(row_tables: &RowTables, role: Option<u32>) -> Option<Rule>
    ensures { result ≡ no_such Roles (row_at role_id row_tables.now.roles.rows) role }
{
    match role {
        None => None,
        Some(id) => if row_tables.roles().get(id).is_some() {
            None
        } else {
            Some(Rule::NoSuch(Kind::Roles, id))
        },
    }
}

/// The RIR that is named, if it does not exist.
pub fn missing_rir(row_tables: &RowTables, rir: u32) -> Option<Rule>
    ensures { result ≡ no_such Rirs (row_at rir_id row_tables.now.rirs.rows) (Some rir) }
{
    if row_tables.rirs().get(rir).is_some() {
        return None;
    }
    Some(Rule::NoSuch(Kind::Rirs, rir))
}
