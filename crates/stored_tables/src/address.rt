//! Addresses as they are stored, and as they are read again.

ghost use Rattle.std.specs.Prelude.{◌≡◌, ◌≤◌, ◌∷◌, [], IfOk, map};
ghost use Rattle.ipam_data.specs.declared.kinds.Kind.TheVariants as Kind;
ghost use Rattle.stored_tables.specs.Stored.{stored_address, stored_columns};
ghost use Rattle.stored_tables.specs.Reading.{IsRead, IsTypedAddress, row_of};

use crate::columns::{
    read_address_role, read_address_status, read_dns_name, read_host_text, read_reference,
    read_text,
};
use crate::tables::{Row, Text, Texts};
use crate::writing::{
    address_role_words, address_status_words, host_words, reference_words, words,
};
use ipam_data::address::IpAddress;
use ipam_data::kinds::Kind;
use ipam_data::text::DescriptionBounds;
use std::alloc::{AllocError, Global};

/// The columns of addresses past the id, in the order of their texts.
pub(crate) fn address_columns() -> &'static [&'static str]
    ensures { map (λ c. c.now) result.now ≡ stored_columns Kind.Addresses }
{
    &[
        "address",
        "vrf",
        "status",
        "role",
        "dns_name",
        "description",
    ]
}

/// An address as it is stored.
#[tactic(auto, unfolding(crate::specs::Stored::address_texts))]
pub(crate) fn write_address(alloc: Global, row: &IpAddress) -> Result<Row, AllocError>
    ensures { IfOk result (λ r. r ≡ stored_address row.now) }
{
    let mut fields = Vec::with_capacity(alloc, 6)?;
    fields.push(host_words(alloc, row.host.addr(), row.host.len())?)?;
    fields.push(reference_words(alloc, row.vrf)?)?;
    fields.push(address_status_words(row.status))?;
    fields.push(address_role_words(row.role))?;
    fields.push(words(alloc, row.dns_name.as_str())?)?;
    fields.push(words(alloc, row.description.as_str())?)?;
    Ok(Row {
        kind: Kind::Addresses,
        id: row.id,
        fields: Texts::of(fields),
    })
}

/// An address of an id and its texts. `Err` means out of memory.
pub(crate) fn read_address(
    alloc: Global,
    id: u32,
    fields: &[Text],
) -> Result<Option<IpAddress>, AllocError>
    requires { 1 ≤ id }
    ensures { IfOk result (λ r. IsRead IsTypedAddress stored_address (row_of Kind.Addresses id fields.now) r) }
{
    if fields.len() != 6 {
        return Ok(None);
    }
    let [host, vrf, status, role, dns_name, description] = fields else {
        return Ok(None);
    };
    let Some(host) = read_host_text(host) else {
        return Ok(None);
    };
    let Some(vrf) = read_reference(vrf) else {
        return Ok(None);
    };
    let Some(status) = read_address_status(status) else {
        return Ok(None);
    };
    let Some(role) = read_address_role(role) else {
        return Ok(None);
    };
    let Some(dns_name) = read_dns_name(alloc, dns_name)? else {
        return Ok(None);
    };
    let Some(description) = read_text::<DescriptionBounds>(alloc, description)? else {
        return Ok(None);
    };
    Ok(Some(IpAddress {
        id,
        host,
        vrf,
        status,
        role,
        dns_name,
        description,
    }))
}
