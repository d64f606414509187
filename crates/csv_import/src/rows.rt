//! What a line represents.

ghost use Rattle.csv.specs.Records.{fields_of};
ghost use Rattle.csv_import.specs.Rows.{OrMemory, IsCellsOf, IsRowOf};

use crate::address::read_address;
use crate::aggregate::read_aggregate;
use crate::cells::malformed;
use crate::prefix::read_prefix;
use crate::range::read_range;
use crate::rir::read_rir;
use crate::role::read_role;
use crate::stops::Stop;
use crate::vrf::read_vrf;
use csv::{ByteRecord, StringRecord};
use ipam_data::imports::ImportRow;
use ipam_data::kinds::Kind;
use ipam_data::replies::FieldName;
use std::alloc::Global;

/// The row of a kind that the cells of a line represent.
fn row_of_cells(
    alloc: Global,
    kind: Kind,
    header: &ByteRecord,
    line: &StringRecord,
) -> Result<ImportRow, Stop>
    ensures { OrMemory (IsCellsOf kind (fields_of header.now) (fields_of line.now)) result }
{
    match kind {
        Kind::Vrfs => read_vrf(alloc, header, line),
        Kind::Rirs => read_rir(alloc, header, line),
        Kind::Roles => read_role(alloc, header, line),
        Kind::Aggregates => read_aggregate(alloc, header, line),
        Kind::Prefixes => read_prefix(alloc, header, line),
        Kind::Ranges => read_range(alloc, header, line),
        Kind::Addresses => read_address(alloc, header, line),
    }
}

/// The row of a kind that a line represents.
pub(crate) fn read_row(
    alloc: Global,
    kind: Kind,
    header: &ByteRecord,
    line: ByteRecord,
) -> Result<ImportRow, Stop>
    ensures { OrMemory (IsRowOf kind (fields_of header.now) (fields_of line)) result }
{
    if line.len() != header.len() {
        return Err(malformed(FieldName::Row));
    }
    match StringRecord::from_byte_record(line) {
        Ok(line) => row_of_cells(alloc, kind, header, &line),
        Err(_) => Err(malformed(FieldName::Row)),
    }
}
