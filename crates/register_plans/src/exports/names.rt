//! The names of the records that a record names.

ghost use Rattle.std.specs.Prelude.{◌≡◌, IfOk, IsSome};
ghost use Rattle.ipam_data.specs.Rows.{rir_id};
ghost use Rattle.ipam_data.specs.RowList.{row_at};
ghost use Rattle.ipam_data.specs.Exported.{rir_name, role_name, vrf_name};

use ipam_data::text::{DnsName, DnsText, Name};
use placed_book::Book;
use register_tables::RowTables;
use std::alloc::{AllocError, Global};

/// The name of the VRF of an id.
pub(crate) fn vrf_name_of(
    row_tables: &RowTables,
    vrf: Option<u32>,
) -> Result<Option<Name>, AllocError>
    ensures { IfOk result (λ name. name ≡ vrf_name row_tables.now.vrfs.rows vrf) }
{
    let Some(id) = vrf else {
        return Ok(None);
    };
    match row_tables.vrfs().get(id) {
        Some(row) => Ok(Some(row.name.copy()?)),
        None => Ok(None),
    }
}

/// The name of the role of an id.
pub(crate) fn role_name_of(
    row_tables: &RowTables,
    role: Option<u32>,
) -> Result<Option<Name>, AllocError>
    ensures { IfOk result (λ name. name ≡ role_name row_tables.now.roles.rows role) }
{
    let Some(id) = role else {
        return Ok(None);
    };
    match row_tables.roles().get(id) {
        Some(row) => Ok(Some(row.name.copy()?)),
        None => Ok(None),
    }
}

/// The name of the RIR of an id, which exists.
pub(crate) fn rir_name_of(row_tables: &RowTables, rir: u32) -> Result<Name, AllocError>
    requires { IsSome (row_at rir_id row_tables.now.rirs.rows rir) }
    ensures { IfOk result (λ name. name ≡ rir_name row_tables.now.rirs.rows rir) }
{
    match row_tables.rirs().get(rir) {
        Some(row) => row.name.copy(),
        None => unreachable!(),
    }
}

/// The name of a host as a row of an import has it.
pub(crate) fn dns_text_of(alloc: Global, name: &DnsName) -> Result<DnsText, AllocError>
    ensures { IfOk result (λ text. text ≡ name.now) }
{
    let text = String::from_str(alloc, name.as_str())?;
    match DnsText::of(text) {
        Some(text) => Ok(text),
        None => unreachable!(),
    }
}
