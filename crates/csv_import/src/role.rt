//! Roles in files.

ghost use Rattle.std.specs.Prelude.{◌≡◌, IfOk};
ghost use Rattle.csv.specs.Records.{fields_of};
ghost use Rattle.ipam_data.specs.declared.kinds.Kind.TheVariants.{Roles};
ghost use Rattle.ipam_data.specs.Imports.{kind_of_row};
ghost use Rattle.csv_import.specs.Exports.{fields_of_row};
ghost use Rattle.csv_import.specs.Rows.{OrMemory, IsCellsOf};

use crate::cells::{description, name, slug};
use crate::stops::Stop;
use crate::weights::{weighed, weight};
use csv::{ByteRecord, StringRecord};
use ipam_data::imports::ImportRow;
use ipam_data::replies::FieldName;
use std::alloc::{AllocError, Global};

/// The row of a role that the cells of a line represent.
pub(crate) fn read_role(
    alloc: Global,
    header: &ByteRecord,
    line: &StringRecord,
) -> Result<ImportRow, Stop>
    ensures { OrMemory (IsCellsOf Roles (fields_of header.now) (fields_of line.now)) result }
{
    let weight = weight(header, line);
    let name = name(alloc, header, line, FieldName::Name)?;
    let slug = slug(alloc, header, line)?;
    let weight = weighed(weight)?;
    let description = description(alloc, header, line)?;
    Ok(ImportRow::Role {
        name,
        slug,
        weight,
        description,
    })
}

/// The fields of a role, in the order of its columns. The row is one of its kind.
pub(crate) fn role_fields(alloc: Global, row: &ImportRow) -> Result<StringRecord, AllocError>
    requires { kind_of_row row.now ≡ Roles }
    ensures { IfOk result (λ r. fields_of r ≡ fields_of_row row.now) }
{
    let ImportRow::Role {
        name,
        slug,
        weight,
        description,
    } = row
    else {
        unreachable!()
    };
    let weight = weight.get().to_string(alloc)?;
    let mut fields = StringRecord::new(alloc);
    fields.push_field(name.as_str())?;
    fields.push_field(slug.as_str())?;
    fields.push_field(weight.as_str())?;
    fields.push_field(description.as_str())?;
    Ok(fields)
}
