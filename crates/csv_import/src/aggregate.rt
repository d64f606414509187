//! Aggregates in files.

ghost use Rattle.std.specs.Prelude.{◌≡◌, IfOk};
ghost use Rattle.csv.specs.Records.{fields_of};
ghost use Rattle.ipam_data.specs.declared.kinds.Kind.TheVariants.{Aggregates};
ghost use Rattle.ipam_data.specs.Imports.{kind_of_row};
ghost use Rattle.csv_import.specs.Exports.{fields_of_row};
ghost use Rattle.csv_import.specs.Rows.{OrMemory, IsCellsOf};

use crate::cells::{description, name};
use crate::nets::block;
use crate::stops::Stop;
use csv::{ByteRecord, StringRecord};
use ipam_data::imports::ImportRow;
use ipam_data::replies::FieldName;
use std::alloc::{AllocError, Global};

/// The row of an aggregate that the cells of a line represent.
pub(crate) fn read_aggregate(
    alloc: Global,
    header: &ByteRecord,
    line: &StringRecord,
) -> Result<ImportRow, Stop>
    ensures { OrMemory (IsCellsOf Aggregates (fields_of header.now) (fields_of line.now)) result }
{
    let block = block(header, line);
    let block = block?;
    let rir = name(alloc, header, line, FieldName::Rir)?;
    let description = description(alloc, header, line)?;
    Ok(ImportRow::Aggregate {
        block,
        rir,
        description,
    })
}

/// The fields of an aggregate, in the order of its columns. The row is one of its kind.
pub(crate) fn aggregate_fields(alloc: Global, row: &ImportRow) -> Result<StringRecord, AllocError>
    requires { kind_of_row row.now ≡ Aggregates }
    ensures { IfOk result (λ r. fields_of r ≡ fields_of_row row.now) }
{
    let ImportRow::Aggregate {
        block,
        rir,
        description,
    } = row
    else {
        unreachable!()
    };
    let block = block.to_string(alloc)?;
    let mut fields = StringRecord::new(alloc);
    fields.push_field(block.as_str())?;
    fields.push_field(rir.as_str())?;
    fields.push_field(description.as_str())?;
    Ok(fields)
}
