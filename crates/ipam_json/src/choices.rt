//! Members that are one of a few words: statuses, and roles of addresses.

ghost use Rattle.std.specs.Prelude.{◌≡◌, Some, None};
ghost use Rattle.serde_json.specs.View.{view};
ghost use Rattle.ipam_json.specs.Members.{prefix_status_of, range_status_of, address_status_of, address_role_in, address_role_of};
ghost use Rattle.ipam_json.specs.Outcomes.{read_member, read_given};
ghost use Rattle.ipam_data.specs.declared.replies.FieldName.TheVariants.{Role as RoleField, Status as StatusField};

use crate::members::member;
use ipam_data::address::{AddressRole, AddressStatus};
use ipam_data::prefix::PrefixStatus;
use ipam_data::range::RangeStatus;
use ipam_data::replies::{FieldName, Refusal};
use ipam_words::{
    address_role_named, address_status_named, prefix_status_named, range_status_named,
};
use serde_json::Value;

/// The status of a prefix that a value is.
fn prefix_status_in(value: &Value) -> Option<PrefixStatus>
    ensures { result ≡ prefix_status_of (Some (view value.now)) }
{
    match value.as_str() {
        Some(word) => prefix_status_named(word),
        None => None,
    }
}

/// The status of a prefix, which may be absent.
pub(crate) fn prefix_status(body: &Value) -> Result<PrefixStatus, Refusal>
    ensures { read_member StatusField prefix_status_of (view body.now) ≡ result }
{
    let Some(value) = member(body, FieldName::Status) else {
        return Ok(PrefixStatus::Active);
    };
    match prefix_status_in(value) {
        Some(status) => Ok(status),
        None => Err(Refusal::Field(FieldName::Status)),
    }
}

/// The status of a prefix, if it is given.
pub(crate) fn given_prefix_status(body: &Value) -> Result<Option<PrefixStatus>, Refusal>
    ensures { read_given StatusField prefix_status_of (view body.now) ≡ result }
{
    let Some(value) = member(body, FieldName::Status) else {
        return Ok(None);
    };
    match prefix_status_in(value) {
        Some(status) => Ok(Some(status)),
        None => Err(Refusal::Field(FieldName::Status)),
    }
}

/// The status of a range that a value is.
fn range_status_in(value: &Value) -> Option<RangeStatus>
    ensures { result ≡ range_status_of (Some (view value.now)) }
{
    match value.as_str() {
        Some(word) => range_status_named(word),
        None => None,
    }
}

/// The status of a range, which may be absent.
pub(crate) fn range_status(body: &Value) -> Result<RangeStatus, Refusal>
    ensures { read_member StatusField range_status_of (view body.now) ≡ result }
{
    let Some(value) = member(body, FieldName::Status) else {
        return Ok(RangeStatus::Active);
    };
    match range_status_in(value) {
        Some(status) => Ok(status),
        None => Err(Refusal::Field(FieldName::Status)),
    }
}

/// The status of a range, if it is given.
pub(crate) fn given_range_status(body: &Value) -> Result<Option<RangeStatus>, Refusal>
    ensures { read_given StatusField range_status_of (view body.now) ≡ result }
{
    let Some(value) = member(body, FieldName::Status) else {
        return Ok(None);
    };
    match range_status_in(value) {
        Some(status) => Ok(Some(status)),
        None => Err(Refusal::Field(FieldName::Status)),
    }
}

/// The status of an address that a value is.
fn address_status_in(value: &Value) -> Option<AddressStatus>
    ensures { result ≡ address_status_of (Some (view value.now)) }
{
    match value.as_str() {
        Some(word) => address_status_named(word),
        None => None,
    }
}

/// The status of an address, which may be absent.
pub(crate) fn address_status(body: &Value) -> Result<AddressStatus, Refusal>
    ensures { read_member StatusField address_status_of (view body.now) ≡ result }
{
    let Some(value) = member(body, FieldName::Status) else {
        return Ok(AddressStatus::Active);
    };
    match address_status_in(value) {
        Some(status) => Ok(status),
        None => Err(Refusal::Field(FieldName::Status)),
    }
}

/// The status of an address, if it is given.
pub(crate) fn given_address_status(body: &Value) -> Result<Option<AddressStatus>, Refusal>
    ensures { read_given StatusField address_status_of (view body.now) ≡ result }
{
    let Some(value) = member(body, FieldName::Status) else {
        return Ok(None);
    };
    match address_status_in(value) {
        Some(status) => Ok(Some(status)),
        None => Err(Refusal::Field(FieldName::Status)),
    }
}

/// The role of an address that a text names: none if it is empty.
fn role_of_text(text: &str) -> Option<Option<AddressRole>>
    ensures { result ≡ address_role_in text.now }
{
    if text.is_empty() {
        return Some(None);
    }
    match address_role_named(text) {
        Some(role) => Some(Some(role)),
        None => None,
    }
}

/// The role of an address that a value is; null and an empty text are none.
fn address_role_in_value(value: &Value) -> Option<Option<AddressRole>>
    ensures { result ≡ address_role_of (Some (view value.now)) }
{
    if value.is_null() {
        return Some(None);
    }
    let text = value.as_str()?;
    role_of_text(text)
}

/// The role of an address, if it has one.
pub(crate) fn address_role(body: &Value) -> Result<Option<AddressRole>, Refusal>
    ensures { read_member RoleField address_role_of (view body.now) ≡ result }
{
    let Some(value) = member(body, FieldName::Role) else {
        return Ok(None);
    };
    match address_role_in_value(value) {
        Some(role) => Ok(role),
        None => Err(Refusal::Field(FieldName::Role)),
    }
}

/// The role of an address, if it is given; an inner `None` clears it.
pub(crate) fn given_address_role(body: &Value) -> Result<Option<Option<AddressRole>>, Refusal>
    ensures { read_given RoleField address_role_of (view body.now) ≡ result }
{
    let Some(value) = member(body, FieldName::Role) else {
        return Ok(None);
    };
    match address_role_in_value(value) {
        Some(role) => Ok(Some(role)),
        None => Err(Refusal::Field(FieldName::Role)),
    }
}
