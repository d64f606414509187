//! Cells that are the text of a block or of a host.

ghost use Rattle.std.specs.Prelude.{◌≡◌};
ghost use Rattle.csv.specs.Records.{fields_of};
ghost use Rattle.ipam_data.specs.declared.replies.FieldName.TheVariants.{Prefix as PrefixField};
ghost use Rattle.csv_import.specs.Cells.{cell, block_fault, IsBlockReading, IsHostReading};

use crate::cells::cell;
use csv::{ByteRecord, StringRecord};
use inet_num::{Block, TextFault, read_block, read_host};
use ipam_data::host::Host;
use ipam_data::replies::{FieldName, RowFault, Rule};

/// What a faulty text of a block is answered.
fn fault_of(fault: TextFault) -> RowFault
    ensures { result ≡ block_fault fault }
{
    match fault {
        TextFault::HostBits(block) => RowFault::Rule(Rule::HostBits(block)),
        TextFault::Shape | TextFault::Octet | TextFault::Group | TextFault::Length => {
            RowFault::Field(FieldName::Prefix)
        }
    }
}

/// The block of a line.
pub(crate) fn block(header: &ByteRecord, line: &StringRecord) -> Result<Block, RowFault>
    ensures { IsBlockReading (cell (fields_of header.now) (fields_of line.now) PrefixField) result }
{
    match read_block(cell(header, line, FieldName::Prefix).as_bytes()) {
        Ok(block) => Ok(block),
        Err(fault) => Err(fault_of(fault)),
    }
}

/// The host that a text is: an address, whose mask is its width if the text has none.
fn host_of(text: &str, name: FieldName) -> Result<Host, RowFault>
    ensures { IsHostReading name text.now result }
{
    match read_host(text.as_bytes()) {
        Ok((addr, len)) => match Host::of(addr, len) {
            Some(host) => Ok(host),
            None => unreachable!(),
        },
        Err(_) => Err(RowFault::Field(name)),
    }
}

/// The host under a column.
pub(crate) fn host(
    header: &ByteRecord,
    line: &StringRecord,
    name: FieldName,
) -> Result<Host, RowFault>
    ensures { IsHostReading name (cell (fields_of header.now) (fields_of line.now) name) result }
{
    host_of(cell(header, line, name), name)
}
