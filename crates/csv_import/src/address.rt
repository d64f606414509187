//! Addresses in files.

ghost use Rattle.std.specs.Prelude.{◌≡◌, IfOk};
ghost use Rattle.csv.specs.Records.{fields_of};
ghost use Rattle.ipam_data.specs.declared.kinds.Kind.TheVariants.{Addresses};
ghost use Rattle.ipam_data.specs.Imports.{kind_of_row};
ghost use Rattle.csv_import.specs.Exports.{fields_of_row};
ghost use Rattle.csv_import.specs.Rows.{OrMemory, IsCellsOf};

use crate::cells::{description, dns_name, name_or_none};
use crate::choices::{address_role, address_status};
use crate::fields::{host_name, name_text, role_name};
use crate::nets::host;
use crate::stops::Stop;
use csv::{ByteRecord, StringRecord};
use ipam_data::imports::ImportRow;
use ipam_data::replies::FieldName;
use ipam_words::address_status_value;
use std::alloc::{AllocError, Global};

/// The row of an address that the cells of a line represent.
pub(crate) fn read_address(
    alloc: Global,
    header: &ByteRecord,
    line: &StringRecord,
) -> Result<ImportRow, Stop>
    ensures { OrMemory (IsCellsOf Addresses (fields_of header.now) (fields_of line.now)) result }
{
    let host = host(header, line, FieldName::Address);
    let host = host?;
    let vrf = name_or_none(alloc, header, line, FieldName::Vrf)?;
    let status = address_status(header, line)?;
    let role = address_role(header, line)?;
    let dns_name = dns_name(alloc, header, line)?;
    let description = description(alloc, header, line)?;
    Ok(ImportRow::IpAddress {
        host,
        vrf,
        status,
        role,
        dns_name,
        description,
    })
}

/// The fields of an address, in the order of its columns. The row is one of its kind.
pub(crate) fn address_fields(alloc: Global, row: &ImportRow) -> Result<StringRecord, AllocError>
    requires { kind_of_row row.now ≡ Addresses }
    ensures { IfOk result (λ r. fields_of r ≡ fields_of_row row.now) }
{
    let ImportRow::IpAddress {
        host,
        vrf,
        status,
        role,
        dns_name,
        description,
    } = row
    else {
        unreachable!()
    };
    let host = host_name(alloc, *host)?;
    let mut fields = StringRecord::new(alloc);
    fields.push_field(host.as_str())?;
    fields.push_field(name_text(vrf))?;
    fields.push_field(address_status_value(*status))?;
    fields.push_field(role_name(*role))?;
    fields.push_field(dns_name.as_str())?;
    fields.push_field(description.as_str())?;
    Ok(fields)
}
