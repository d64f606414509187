//! RIRs in files.

ghost use Rattle.std.specs.Prelude.{◌≡◌, IfOk};
ghost use Rattle.csv.specs.Records.{fields_of};
ghost use Rattle.ipam_data.specs.declared.kinds.Kind.TheVariants.{Rirs};
ghost use Rattle.ipam_data.specs.Imports.{kind_of_row};
ghost use Rattle.csv_import.specs.Exports.{fields_of_row};
ghost use Rattle.csv_import.specs.Rows.{OrMemory, rir_row};

use crate::cells::{description, flag, name, slug};
use crate::fields::flag_name;
use crate::stops::Stop;
use csv::{ByteRecord, StringRecord};
use ipam_data::imports::ImportRow;
use ipam_data::replies::FieldName;
use std::alloc::{AllocError, Global};

/// The row of an RIR that the cells of a line represent.
pub(crate) fn read_rir(
    alloc: Global,
    header: &ByteRecord,
    line: &StringRecord,
) -> Result<ImportRow, Stop>
    ensures { OrMemory (λ r. rir_row (fields_of header.now) (fields_of line.now) ≡ r) result }
{
    let name = name(alloc, header, line, FieldName::Name)?;
    let slug = slug(alloc, header, line)?;
    let is_private = flag(header, line, FieldName::IsPrivate, false)?;
    let description = description(alloc, header, line)?;
    Ok(ImportRow::Rir {
        name,
        slug,
        is_private,
        description,
    })
}

/// The fields of an RIR, in the order of its columns. The row is one of its kind.
pub(crate) fn rir_fields(alloc: Global, row: &ImportRow) -> Result<StringRecord, AllocError>
    requires { kind_of_row row.now ≡ Rirs }
    ensures { IfOk result (λ r. fields_of r ≡ fields_of_row row.now) }
{
    let ImportRow::Rir {
        name,
        slug,
        is_private,
        description,
    } = row
    else {
        unreachable!()
    };
    let mut fields = StringRecord::new(alloc);
    fields.push_field(name.as_str())?;
    fields.push_field(slug.as_str())?;
    fields.push_field(flag_name(*is_private))?;
    fields.push_field(description.as_str())?;
    Ok(fields)
}
