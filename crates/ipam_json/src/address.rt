//! Addresses in JSON: the bodies of a Create and of a Change, and the row.

ghost use Rattle.std.specs.Prelude.{◌≡◌};
ghost use Rattle.ipam_json.specs.Addresses.{address_data, address_role_data};
ghost use Rattle.ipam_json.specs.Values.{choice_data};
ghost use Rattle.ipam_json.specs.Values as values;
ghost use Rattle.ipam_words.specs.Words.{address_status_label as label_of, address_status_value as value_of};
ghost use Rattle.ipam_json.specs.Written.{Puts, pieces_of};
ghost use Rattle.serde_json.specs.View.{view};
ghost use Rattle.ipam_json.specs.Outcomes.{OrMemory};
ghost use Rattle.ipam_json.specs.Bodies.{IsObjectOf, IsEditObjectOf};
ghost use Rattle.ipam_data.specs.declared.kinds.Kind.TheVariants.{Addresses};

use crate::choices::{address_role, address_status, given_address_role, given_address_status};
use crate::members::{description, dns_name, given_description, given_dns_name};
use crate::nets::{given_host, host};
use crate::numbers::{given_id, id};
use crate::writing::{put_choice, put_family, put_id, put_name, put_reference, put_text};
use inet_num::host_text;
use ipam_data::address::{AddressRole, AddressStatus, IpAddress};
use ipam_data::calls::{Draft, Edit};
use ipam_data::replies::{FieldName, Refusal};
use ipam_words::{
    address_role_label, address_role_value, address_status_label, address_status_value,
};
use json::Writer;
use serde_json::Value;
use std::alloc::{AllocError, Global};

/// The draft of an address that a body asks for.
pub(crate) fn address_draft(alloc: Global, body: &Value) -> Result<Draft, Refusal>
    ensures { OrMemory (IsObjectOf Addresses (view body.now)) result }
{
    let host = host(body, FieldName::Address)?;
    let vrf = id(body, FieldName::Vrf)?;
    let status = address_status(body)?;
    let role = address_role(body)?;
    let dns_name = dns_name(alloc, body)?;
    let description = description(alloc, body)?;
    Ok(Draft::IpAddress {
        host,
        vrf,
        status,
        role,
        dns_name,
        description,
    })
}

/// The edit of an address that a body asks for: an absent member leaves its field.
pub(crate) fn address_edit(alloc: Global, body: &Value) -> Result<Edit, Refusal>
    ensures { OrMemory (IsEditObjectOf Addresses (view body.now)) result }
{
    let host = given_host(body, FieldName::Address)?;
    let vrf = given_id(body, FieldName::Vrf)?;
    let status = given_address_status(body)?;
    let role = given_address_role(body)?;
    let dns_name = given_dns_name(alloc, body)?;
    let description = given_description(alloc, body)?;
    Ok(Edit::IpAddress {
        host,
        vrf,
        status,
        role,
        dns_name,
        description,
    })
}

/// Writes a status.
fn put_status(writer: &mut Writer, status: AddressStatus) -> Result<(), AllocError>
    ensures { Puts result writer.old writer.new (pieces_of (choice_data (label_of status) (value_of status))) }
{
    put_choice(
        writer,
        address_status_label(status),
        address_status_value(status),
    )
}

/// Writes a role, or null.
fn put_role(writer: &mut Writer, role: Option<AddressRole>) -> Result<(), AllocError>
    ensures { Puts result writer.old writer.new (pieces_of (address_role_data role)) }
{
    match role {
        Some(role) => put_choice(writer, address_role_label(role), address_role_value(role)),
        None => writer.null(),
    }
}

/// Writes an address, whose host has this text.
fn put_address_with(writer: &mut Writer, row: &IpAddress, host: &str) -> Result<(), AllocError>
    requires { host.now ≡ values.host_text row.now.host.addr row.now.host.len }
    ensures { Puts result writer.old writer.new (pieces_of (address_data row.now)) }
{
    writer.begin_object()?;
    put_text(writer, FieldName::Address, host)?;
    put_text(writer, FieldName::Description, row.description.as_str())?;
    put_text(writer, FieldName::DnsName, row.dns_name.as_str())?;
    put_family(writer, row.host.addr().family())?;
    put_id(writer, row.id)?;
    put_name(writer, FieldName::Role)?;
    put_role(writer, row.role)?;
    put_name(writer, FieldName::Status)?;
    put_status(writer, row.status)?;
    put_reference(writer, FieldName::Vrf, row.vrf)?;
    writer.end_object()
}

/// Writes an address.
pub(crate) fn put_address(writer: &mut Writer, row: &IpAddress) -> Result<(), AllocError>
    ensures { Puts result writer.old writer.new (pieces_of (address_data row.now)) }
{
    let host = host_text(row.host.addr(), row.host.len());
    put_address_with(writer, row, host.as_str())
}
