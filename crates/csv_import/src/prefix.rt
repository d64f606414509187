//! Prefixes in files.

ghost use Rattle.std.specs.Prelude.{◌≡◌, IfOk};
ghost use Rattle.csv.specs.Records.{fields_of};
ghost use Rattle.ipam_data.specs.declared.kinds.Kind.TheVariants.{Prefixes};
ghost use Rattle.ipam_data.specs.Imports.{kind_of_row};
ghost use Rattle.csv_import.specs.Exports.{fields_of_row};
ghost use Rattle.csv_import.specs.Rows.{OrMemory, IsCellsOf};

use crate::cells::{description, flag, name_or_none};
use crate::choices::prefix_status;
use crate::fields::{flag_name, name_text};
use crate::nets::block;
use crate::stops::Stop;
use csv::{ByteRecord, StringRecord};
use ipam_data::imports::ImportRow;
use ipam_data::replies::FieldName;
use ipam_words::prefix_status_value;
use std::alloc::{AllocError, Global};

/// The row of a prefix that the cells of a line represent.
pub(crate) fn read_prefix(
    alloc: Global,
    header: &ByteRecord,
    line: &StringRecord,
) -> Result<ImportRow, Stop>
    ensures { OrMemory (IsCellsOf Prefixes (fields_of header.now) (fields_of line.now)) result }
{
    let block = block(header, line);
    let block = block?;
    let vrf = name_or_none(alloc, header, line, FieldName::Vrf)?;
    let status = prefix_status(header, line)?;
    let role = name_or_none(alloc, header, line, FieldName::Role)?;
    let is_pool = flag(header, line, FieldName::IsPool, false)?;
    let mark_utilized = flag(header, line, FieldName::MarkUtilized, false)?;
    let description = description(alloc, header, line)?;
    Ok(ImportRow::Prefix {
        block,
        vrf,
        status,
        role,
        is_pool,
        mark_utilized,
        description,
    })
}

/// The fields of a prefix, in the order of its columns. The row is one of its kind.
pub(crate) fn prefix_fields(alloc: Global, row: &ImportRow) -> Result<StringRecord, AllocError>
    requires { kind_of_row row.now ≡ Prefixes }
    ensures { IfOk result (λ r. fields_of r ≡ fields_of_row row.now) }
{
    let ImportRow::Prefix {
        block,
        vrf,
        status,
        role,
        is_pool,
        mark_utilized,
        description,
    } = row
    else {
        unreachable!()
    };
    let block = block.to_string(alloc)?;
    let mut fields = StringRecord::new(alloc);
    fields.push_field(block.as_str())?;
    fields.push_field(name_text(vrf))?;
    fields.push_field(prefix_status_value(*status))?;
    fields.push_field(name_text(role))?;
    fields.push_field(flag_name(*is_pool))?;
    fields.push_field(flag_name(*mark_utilized))?;
    fields.push_field(description.as_str())?;
    Ok(fields)
}
