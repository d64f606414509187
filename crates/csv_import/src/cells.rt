//! The cells of a line under a header, read into texts and truth values.

ghost use Rattle.std.specs.Prelude.{◌≡◌, ◌<◌, [], length, Some, None, IfOk, IfErr, string_bytes, bytes_eq, get_or};
ghost use Rattle.std.specs.List.{position_from};
ghost use Rattle.csv.specs.Records.{fields_of};
ghost use Rattle.ipam_data.specs.declared.replies.FieldName.TheVariants.{Description as DescriptionField, DnsName as DnsNameField, Rd as RdField, Slug as SlugField};
ghost use Rattle.ipam_data.specs.declared.replies.RowFault.TheVariants.{Field};
ghost use Rattle.csv_import.specs.declared.stops.Stop.TheVariants.{Fault, Memory};
ghost use Rattle.csv_import.specs.Cells.{cell, within, within_or_none, slugged, of_bytes, flag_of};
ghost use Rattle.csv_import.specs.Rows.{OrMemory, read};

use crate::stops::Stop;
use csv::{ByteRecord, StringRecord};
use ipam_data::replies::{FieldName, RowFault};
use ipam_data::text::{Description, Distinguisher, DnsText, Name, Slug};
use ipam_words::field_name;
use std::alloc::Global;

/// Whether the column at this place has the name.
pub(crate) fn has_name(header: &ByteRecord, i: usize, name: &str) -> bool
    requires { i < length (fields_of header.now) }
    ensures { result ≡ bytes_eq name.now (get_or (fields_of header.now) i []) }
{
    match header.get(i) {
        Some(field) => name.as_bytes() == field,
        None => false,
    }
}

/// The first column of this name.
fn place(header: &ByteRecord, name: &str) -> Option<usize>
    ensures { result ≡ position_from (bytes_eq name.now) 0 (fields_of header.now) }
{
    for i in 0..header.len() {
        if has_name(header, i, name) {
            return Some(i);
        }
    }
    None
}

/// The field under the column of this name, or nothing.
pub(crate) fn cell<'a>(header: &ByteRecord, line: &'a StringRecord, name: FieldName) -> &'a str
    ensures { result.now ≡ cell (fields_of header.now) (fields_of line.entry.now) name }
{
    match place(header, field_name(name)) {
        Some(i) => match line.get(i) {
            Some(field) => field,
            None => "",
        },
        None => "",
    }
}

/// The stop at a malformed cell of this column.
pub(crate) fn malformed(name: FieldName) -> Stop
    ensures { result ≡ Fault (Field name) }
{
    Stop::Fault(RowFault::Field(name))
}

/// A text of the caller's, or out of memory.
fn owned(alloc: Global, text: &str) -> Result<String, Stop>
    ensures ok { IfOk result (λ s. string_bytes s ≡ text.now) }
    ensures err { IfErr result (λ e. e ≡ Memory) }
{
    match String::from_str(alloc, text) {
        Ok(text) => Ok(text),
        Err(_) => Err(Stop::Memory),
    }
}

/// The name under a column.
pub(crate) fn name(
    alloc: Global,
    header: &ByteRecord,
    line: &StringRecord,
    member: FieldName,
) -> Result<Name, Stop>
    ensures { OrMemory (λ r. read member (within 1 100) (fields_of header.now) (fields_of line.now) ≡ r) result }
{
    let text = owned(alloc, cell(header, line, member))?;
    match Name::of(text) {
        Some(name) => Ok(name),
        None => Err(malformed(member)),
    }
}

/// The name under a column, or none if the cell is empty.
pub(crate) fn name_or_none(
    alloc: Global,
    header: &ByteRecord,
    line: &StringRecord,
    member: FieldName,
) -> Result<Option<Name>, Stop>
    ensures { OrMemory (λ r. read member (within_or_none 100) (fields_of header.now) (fields_of line.now) ≡ r) result }
{
    let text = cell(header, line, member);
    if text.is_empty() {
        return Ok(None);
    }
    let text = owned(alloc, text)?;
    match Name::of(text) {
        Some(name) => Ok(Some(name)),
        None => Err(malformed(member)),
    }
}

/// The slug of a line.
pub(crate) fn slug(alloc: Global, header: &ByteRecord, line: &StringRecord) -> Result<Slug, Stop>
    ensures { OrMemory (λ r. read SlugField slugged (fields_of header.now) (fields_of line.now) ≡ r) result }
{
    let text = owned(alloc, cell(header, line, FieldName::Slug))?;
    match Slug::of(text) {
        Some(slug) => Ok(slug),
        None => Err(malformed(FieldName::Slug)),
    }
}

/// The route distinguisher of a line, or none if the cell is empty.
pub(crate) fn distinguisher(
    alloc: Global,
    header: &ByteRecord,
    line: &StringRecord,
) -> Result<Option<Distinguisher>, Stop>
    ensures { OrMemory (λ r. read RdField (within_or_none 21) (fields_of header.now) (fields_of line.now) ≡ r) result }
{
    let text = cell(header, line, FieldName::Rd);
    if text.is_empty() {
        return Ok(None);
    }
    let text = owned(alloc, text)?;
    match Distinguisher::of(text) {
        Some(rd) => Ok(Some(rd)),
        None => Err(malformed(FieldName::Rd)),
    }
}

/// The name of a host.
pub(crate) fn dns_name(
    alloc: Global,
    header: &ByteRecord,
    line: &StringRecord,
) -> Result<DnsText, Stop>
    ensures { OrMemory (λ r. read DnsNameField of_bytes (fields_of header.now) (fields_of line.now) ≡ r) result }
{
    let text = owned(alloc, cell(header, line, FieldName::DnsName))?;
    match DnsText::of(text) {
        Some(text) => Ok(text),
        None => Err(malformed(FieldName::DnsName)),
    }
}

/// The description of a line.
pub(crate) fn description(
    alloc: Global,
    header: &ByteRecord,
    line: &StringRecord,
) -> Result<Description, Stop>
    ensures { OrMemory (λ r. read DescriptionField (within 0 200) (fields_of header.now) (fields_of line.now) ≡ r) result }
{
    let text = owned(alloc, cell(header, line, FieldName::Description))?;
    match Description::of(text) {
        Some(description) => Ok(description),
        None => Err(malformed(FieldName::Description)),
    }
}

/// The truth value under a column; an empty cell is the default.
pub(crate) fn flag(
    header: &ByteRecord,
    line: &StringRecord,
    member: FieldName,
    default: bool,
) -> Result<bool, Stop>
    ensures { OrMemory (λ r. read member (flag_of default) (fields_of header.now) (fields_of line.now) ≡ r) result }
{
    let text = cell(header, line, member);
    if text.is_empty() {
        return Ok(default);
    }
    if text == "true" {
        return Ok(true);
    }
    if text == "false" {
        return Ok(false);
    }
    Err(malformed(member))
}
