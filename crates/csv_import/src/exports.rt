//! The text of an export.

ghost use Rattle.std.specs.Prelude.{◌≡◌, ◌++◌, IfOk, OnOk, OnErr};
ghost use Rattle.csv.specs.Records.{fields_of};
ghost use Rattle.csv.specs.Writing.{default_writer, row_text};
ghost use Rattle.csv_import.specs.Exports.{fields_of_row, header_of, row_line, rows_text};

use crate::address::address_fields;
use crate::aggregate::aggregate_fields;
use crate::columns::kind_columns;
use crate::prefix::prefix_fields;
use crate::range::range_fields;
use crate::rir::rir_fields;
use crate::role::role_fields;
use crate::vrf::vrf_fields;
use csv::{StringRecord, WriterBuilder};
use ipam_data::imports::ImportRow;
use ipam_data::kinds::Kind;
use ipam_words::field_name;
use std::alloc::{AllocError, Global};

/// The line of these fields, as RFC 4180 has it, with a line feed at its end. `Err` means out of memory.
pub fn line_of(alloc: Global, fields: &StringRecord) -> Result<Vec<u8>, AllocError>
    ensures { IfOk result (λ v. v.items ≡ row_text default_writer (fields_of fields.now)) }
{
    let mut wtr = WriterBuilder::new().from_writer(Vec::new(alloc));
    if wtr.write_byte_record(fields.as_byte_record()).is_err() {
        return Err(AllocError);
    }
    match wtr.into_inner() {
        Ok(text) => Ok(text),
        Err(_) => Err(AllocError),
    }
}

/// The header of a kind.
fn header_line(alloc: Global, kind: Kind) -> Result<Vec<u8>, AllocError>
    ensures { IfOk result (λ v. v.items ≡ row_text default_writer (header_of kind)) }
{
    let columns = kind_columns(kind);
    let mut names = StringRecord::new(alloc);
    for column in columns {
        names.push_field(field_name(column.name))?;
    }
    line_of(alloc, &names)
}

/// The fields of a row, in the order of the columns.
fn fields_in(alloc: Global, row: &ImportRow) -> Result<StringRecord, AllocError>
    ensures { IfOk result (λ r. fields_of r ≡ fields_of_row row.now) }
{
    match row.kind() {
        Kind::Vrfs => vrf_fields(alloc, row),
        Kind::Rirs => rir_fields(alloc, row),
        Kind::Roles => role_fields(alloc, row),
        Kind::Aggregates => aggregate_fields(alloc, row),
        Kind::Prefixes => prefix_fields(alloc, row),
        Kind::Ranges => range_fields(alloc, row),
        Kind::Addresses => address_fields(alloc, row),
    }
}

/// The line of a row.
fn line_of_row(alloc: Global, row: &ImportRow) -> Result<Vec<u8>, AllocError>
    ensures { IfOk result (λ v. v.items ≡ row_line row.now) }
{
    let fields = fields_in(alloc, row)?;
    line_of(alloc, &fields)
}

/// The whole text.
fn text_of(alloc: Global, kind: Kind, rows: &[ImportRow]) -> Result<Vec<u8>, AllocError>
    ensures { IfOk result (λ v. v.items ≡ rows_text kind rows.now) }
{
    let mut text = header_line(alloc, kind)?;
    for row in rows {
        let own = line_of_row(alloc, row)?;
        text.extend_from_slice(&own)?;
    }
    Ok(text)
}

/// Puts an export after what the output has: the header of all columns of the kind, and a line for each row, as `csv` writes
/// them. `Err` means out of memory, and leaves the output.
pub fn write_rows(
    alloc: Global,
    kind: Kind,
    rows: &[ImportRow],
    out: &mut Vec<u8>,
) -> Result<(), AllocError>
    ensures ok { OnOk result (out.new.items ≡ out.old.items ++ rows_text kind rows.now) }
    ensures err { OnErr result (out.new.items ≡ out.old.items) }
{
    let text = text_of(alloc, kind, rows)?;
    out.extend_from_slice(&text)
}
