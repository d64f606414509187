//! Cells that are one of a few words: statuses, and roles of addresses.

ghost use Rattle.std.specs.Prelude.{◌≡◌};
ghost use Rattle.csv.specs.Records.{fields_of};
ghost use Rattle.ipam_data.specs.declared.replies.FieldName.TheVariants.{Role as RoleField, Status as StatusField};
ghost use Rattle.csv_import.specs.Cells.{prefix_status_of, range_status_of, address_status_of, address_role_of};
ghost use Rattle.csv_import.specs.Rows.{OrMemory, read};

use crate::cells::{cell, malformed};
use crate::stops::Stop;
use csv::{ByteRecord, StringRecord};
use ipam_data::address::{AddressRole, AddressStatus};
use ipam_data::prefix::PrefixStatus;
use ipam_data::range::RangeStatus;
use ipam_data::replies::FieldName;
use ipam_words::{
    address_role_named, address_status_named, prefix_status_named, range_status_named,
};

/// The status of a prefix; an empty cell is active.
pub(crate) fn prefix_status(header: &ByteRecord, line: &StringRecord) -> Result<PrefixStatus, Stop>
    ensures { OrMemory (λ r. read StatusField prefix_status_of (fields_of header.now) (fields_of line.now) ≡ r) result }
{
    let text = cell(header, line, FieldName::Status);
    if text.is_empty() {
        return Ok(PrefixStatus::Active);
    }
    match prefix_status_named(text) {
        Some(status) => Ok(status),
        None => Err(malformed(FieldName::Status)),
    }
}

/// The status of a range; an empty cell is active.
pub(crate) fn range_status(header: &ByteRecord, line: &StringRecord) -> Result<RangeStatus, Stop>
    ensures { OrMemory (λ r. read StatusField range_status_of (fields_of header.now) (fields_of line.now) ≡ r) result }
{
    let text = cell(header, line, FieldName::Status);
    if text.is_empty() {
        return Ok(RangeStatus::Active);
    }
    match range_status_named(text) {
        Some(status) => Ok(status),
        None => Err(malformed(FieldName::Status)),
    }
}

/// The status of an address; an empty cell is active.
pub(crate) fn address_status(
    header: &ByteRecord,
    line: &StringRecord,
) -> Result<AddressStatus, Stop>
    ensures { OrMemory (λ r. read StatusField address_status_of (fields_of header.now) (fields_of line.now) ≡ r) result }
{
    let text = cell(header, line, FieldName::Status);
    if text.is_empty() {
        return Ok(AddressStatus::Active);
    }
    match address_status_named(text) {
        Some(status) => Ok(status),
        None => Err(malformed(FieldName::Status)),
    }
}

/// The role of an address, or none if the cell is empty.
pub(crate) fn address_role(
    header: &ByteRecord,
    line: &StringRecord,
) -> Result<Option<AddressRole>, Stop>
    ensures { OrMemory (λ r. read RoleField address_role_of (fields_of header.now) (fields_of line.now) ≡ r) result }
{
    let text = cell(header, line, FieldName::Role);
    if text.is_empty() {
        return Ok(None);
    }
    match address_role_named(text) {
        Some(role) => Ok(Some(role)),
        None => Err(malformed(FieldName::Role)),
    }
}
