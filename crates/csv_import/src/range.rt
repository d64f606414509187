//! Ranges in files.

ghost use Rattle.std.specs.Prelude.{◌≡◌, IfOk};
ghost use Rattle.csv.specs.Records.{fields_of};
ghost use Rattle.ipam_data.specs.declared.kinds.Kind.TheVariants.{Ranges};
ghost use Rattle.ipam_data.specs.Imports.{kind_of_row};
ghost use Rattle.csv_import.specs.Exports.{fields_of_row};
ghost use Rattle.csv_import.specs.Rows.{OrMemory, IsCellsOf};

use crate::cells::{description, flag, name_or_none};
use crate::choices::range_status;
use crate::fields::{flag_name, host_name, name_text};
use crate::nets::host;
use crate::stops::Stop;
use csv::{ByteRecord, StringRecord};
use ipam_data::imports::ImportRow;
use ipam_data::replies::FieldName;
use ipam_words::range_status_value;
use std::alloc::{AllocError, Global};

/// The row of a range that the cells of a line represent.
pub(crate) fn read_range(
    alloc: Global,
    header: &ByteRecord,
    line: &StringRecord,
) -> Result<ImportRow, Stop>
    ensures { OrMemory (IsCellsOf Ranges (fields_of header.now) (fields_of line.now)) result }
{
    let start = host(header, line, FieldName::StartAddress);
    let end = host(header, line, FieldName::EndAddress);
    let start = start?;
    let end = end?;
    let vrf = name_or_none(alloc, header, line, FieldName::Vrf)?;
    let status = range_status(header, line)?;
    let role = name_or_none(alloc, header, line, FieldName::Role)?;
    let mark_utilized = flag(header, line, FieldName::MarkUtilized, false)?;
    let mark_populated = flag(header, line, FieldName::MarkPopulated, false)?;
    let description = description(alloc, header, line)?;
    Ok(ImportRow::IpRange {
        start,
        end,
        vrf,
        status,
        role,
        mark_utilized,
        mark_populated,
        description,
    })
}

/// The fields of a range, in the order of its columns. The row is one of its kind.
pub(crate) fn range_fields(alloc: Global, row: &ImportRow) -> Result<StringRecord, AllocError>
    requires { kind_of_row row.now ≡ Ranges }
    ensures { IfOk result (λ r. fields_of r ≡ fields_of_row row.now) }
{
    let ImportRow::IpRange {
        start,
        end,
        vrf,
        status,
        role,
        mark_utilized,
        mark_populated,
        description,
    } = row
    else {
        unreachable!()
    };
    let start = host_name(alloc, *start)?;
    let end = host_name(alloc, *end)?;
    let mut fields = StringRecord::new(alloc);
    fields.push_field(start.as_str())?;
    fields.push_field(end.as_str())?;
    fields.push_field(name_text(vrf))?;
    fields.push_field(range_status_value(*status))?;
    fields.push_field(name_text(role))?;
    fields.push_field(flag_name(*mark_utilized))?;
    fields.push_field(flag_name(*mark_populated))?;
    fields.push_field(description.as_str())?;
    Ok(fields)
}
