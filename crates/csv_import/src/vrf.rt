//! VRFs in files.

ghost use Rattle.std.specs.Prelude.{◌≡◌, IfOk};
ghost use Rattle.csv.specs.Records.{fields_of};
ghost use Rattle.ipam_data.specs.declared.kinds.Kind.TheVariants.{Vrfs};
ghost use Rattle.ipam_data.specs.Imports.{kind_of_row};
ghost use Rattle.csv_import.specs.Exports.{fields_of_row};
ghost use Rattle.csv_import.specs.Rows.{OrMemory, vrf_row};

use crate::cells::{description, distinguisher, flag, name};
use crate::fields::{flag_name, rd_text};
use crate::stops::Stop;
use csv::{ByteRecord, StringRecord};
use ipam_data::imports::ImportRow;
use ipam_data::replies::FieldName;
use std::alloc::{AllocError, Global};

/// The row of a VRF that the cells of a line represent.
pub(crate) fn read_vrf(
    alloc: Global,
    header: &ByteRecord,
    line: &StringRecord,
) -> Result<ImportRow, Stop>
    ensures { OrMemory (λ r. vrf_row (fields_of header.now) (fields_of line.now) ≡ r) result }
{
    let name = name(alloc, header, line, FieldName::Name)?;
    let rd = distinguisher(alloc, header, line)?;
    let enforce_unique = flag(header, line, FieldName::EnforceUnique, true)?;
    let description = description(alloc, header, line)?;
    Ok(ImportRow::Vrf {
        name,
        rd,
        enforce_unique,
        description,
    })
}

/// The fields of a VRF, in the order of its columns. The row is one of its kind.
pub(crate) fn vrf_fields(alloc: Global, row: &ImportRow) -> Result<StringRecord, AllocError>
    requires { kind_of_row row.now ≡ Vrfs }
    ensures { IfOk result (λ r. fields_of r ≡ fields_of_row row.now) }
{
    let ImportRow::Vrf {
        name,
        rd,
        enforce_unique,
        description,
    } = row
    else {
        unreachable!()
    };
    let mut fields = StringRecord::new(alloc);
    fields.push_field(name.as_str())?;
    fields.push_field(rd_text(rd))?;
    fields.push_field(flag_name(*enforce_unique))?;
    fields.push_field(description.as_str())?;
    Ok(fields)
}
