//! Members of the object that a body is, read into fields: texts and truth values. Each is read once for a draft, and so for an
//! edit, in which an absent member leaves its field.

ghost use Rattle.std.specs.Prelude.{◌≡◌, Some, None, false, IfOk, IfErr, option_and_then, option_map, string_bytes};
ghost use Rattle.ipam_data.specs.declared.replies.Refusal.TheVariants.{Memory};
ghost use Rattle.serde_json.specs.Find.{get, as_str};
ghost use Rattle.serde_json.specs.View.{view};
ghost use Rattle.ipam_json.specs.Members.{within, name_of, slug_of, description_of, of_bytes, dns_name_of, distinguisher_of, rd_of, flag_of};
ghost use Rattle.ipam_json.specs.Outcomes.{OrMemory, field, value_of, read_member, read_given};
ghost use Rattle.ipam_data.specs.declared.replies.FieldName.TheVariants.{Description as DescriptionField, DnsName as DnsNameField, Name as NameField, Rd as RdField, Slug as SlugField};

use ipam_data::replies::{FieldName, Refusal};
use ipam_data::text::{Description, Distinguisher, DnsText, Name, Slug};
use ipam_words::field_name;
use serde_json::Value;
use std::alloc::Global;

/// The value of a member, if the object has it.
pub(crate) fn member(body: &Value, name: FieldName) -> Option<&Value>
    ensures { option_map (λ v. view v.now) result ≡ value_of name (view body.now) }
{
    body.get(field_name(name))
}

/// A text of the caller's, or out of memory.
fn owned(alloc: Global, text: &str) -> Result<String, Refusal>
    ensures ok { IfOk result (λ s. string_bytes s ≡ text.now) }
    ensures err { IfErr result (λ e. e ≡ Memory) }
{
    match String::from_str(alloc, text) {
        Ok(text) => Ok(text),
        Err(_) => Err(Refusal::Memory),
    }
}

/// The name of a row.
pub(crate) fn name(alloc: Global, body: &Value) -> Result<Name, Refusal>
    ensures { OrMemory (λ r. read_member NameField name_of (view body.now) ≡ r) result }
{
    let Some(text) = member(body, FieldName::Name).and_then(Value::as_str) else {
        return Err(Refusal::Field(FieldName::Name));
    };
    let text = owned(alloc, text)?;
    match Name::of(text) {
        Some(name) => Ok(name),
        None => Err(Refusal::Field(FieldName::Name)),
    }
}

/// The name, if it is given.
pub(crate) fn given_name(alloc: Global, body: &Value) -> Result<Option<Name>, Refusal>
    ensures { OrMemory (λ r. read_given NameField name_of (view body.now) ≡ r) result }
{
    if member(body, FieldName::Name).is_none() {
        return Ok(None);
    }
    Ok(Some(name(alloc, body)?))
}

/// The slug of a row.
pub(crate) fn slug(alloc: Global, body: &Value) -> Result<Slug, Refusal>
    ensures { OrMemory (λ r. read_member SlugField slug_of (view body.now) ≡ r) result }
{
    let Some(text) = member(body, FieldName::Slug).and_then(Value::as_str) else {
        return Err(Refusal::Field(FieldName::Slug));
    };
    let text = owned(alloc, text)?;
    match Slug::of(text) {
        Some(slug) => Ok(slug),
        None => Err(Refusal::Field(FieldName::Slug)),
    }
}

/// The slug, if it is given.
pub(crate) fn given_slug(alloc: Global, body: &Value) -> Result<Option<Slug>, Refusal>
    ensures { OrMemory (λ r. read_given SlugField slug_of (view body.now) ≡ r) result }
{
    if member(body, FieldName::Slug).is_none() {
        return Ok(None);
    }
    Ok(Some(slug(alloc, body)?))
}

/// The description that a text is.
fn described(alloc: Global, text: &str) -> Result<Description, Refusal>
    ensures { OrMemory (λ r. field DescriptionField (within 0 200 text.now) ≡ r) result }
{
    let text = owned(alloc, text)?;
    match Description::of(text) {
        Some(description) => Ok(description),
        None => Err(Refusal::Field(FieldName::Description)),
    }
}

/// The description of a row, which may be absent.
#[tactic(auto, using(crate::proofs::Fields::empty_is_described))]
pub(crate) fn description(alloc: Global, body: &Value) -> Result<Description, Refusal>
    ensures { OrMemory (λ r. read_member DescriptionField description_of (view body.now) ≡ r) result }
{
    let Some(value) = member(body, FieldName::Description) else {
        return described(alloc, "");
    };
    match value.as_str() {
        Some(text) => described(alloc, text),
        None => Err(Refusal::Field(FieldName::Description)),
    }
}

/// The description, if it is given.
pub(crate) fn given_description(alloc: Global, body: &Value) -> Result<Option<Description>, Refusal>
    ensures { OrMemory (λ r. read_given DescriptionField description_of (view body.now) ≡ r) result }
{
    if member(body, FieldName::Description).is_none() {
        return Ok(None);
    }
    Ok(Some(description(alloc, body)?))
}

/// The name of a host that a text is.
fn named_host(alloc: Global, text: &str) -> Result<DnsText, Refusal>
    ensures { OrMemory (λ r. field DnsNameField (of_bytes text.now) ≡ r) result }
{
    let text = owned(alloc, text)?;
    match DnsText::of(text) {
        Some(name) => Ok(name),
        None => Err(Refusal::Field(FieldName::DnsName)),
    }
}

/// The name of a host, which may be absent.
pub(crate) fn dns_name(alloc: Global, body: &Value) -> Result<DnsText, Refusal>
    ensures { OrMemory (λ r. read_member DnsNameField dns_name_of (view body.now) ≡ r) result }
{
    let Some(value) = member(body, FieldName::DnsName) else {
        return named_host(alloc, "");
    };
    match value.as_str() {
        Some(text) => named_host(alloc, text),
        None => Err(Refusal::Field(FieldName::DnsName)),
    }
}

/// The name of a host, if it is given.
pub(crate) fn given_dns_name(alloc: Global, body: &Value) -> Result<Option<DnsText>, Refusal>
    ensures { OrMemory (λ r. read_given DnsNameField dns_name_of (view body.now) ≡ r) result }
{
    if member(body, FieldName::DnsName).is_none() {
        return Ok(None);
    }
    Ok(Some(dns_name(alloc, body)?))
}

/// The route distinguisher of a text: none if it is empty.
fn distinguisher(alloc: Global, text: &str) -> Result<Option<Distinguisher>, Refusal>
    ensures { OrMemory (λ r. field RdField (distinguisher_of text.now) ≡ r) result }
{
    if text.is_empty() {
        return Ok(None);
    }
    let text = owned(alloc, text)?;
    match Distinguisher::of(text) {
        Some(rd) => Ok(Some(rd)),
        None => Err(Refusal::Field(FieldName::Rd)),
    }
}

/// The route distinguisher of a VRF, if it has one.
pub(crate) fn rd(alloc: Global, body: &Value) -> Result<Option<Distinguisher>, Refusal>
    ensures { OrMemory (λ r. read_member RdField rd_of (view body.now) ≡ r) result }
{
    let Some(value) = member(body, FieldName::Rd) else {
        return Ok(None);
    };
    if value.is_null() {
        return Ok(None);
    }
    match value.as_str() {
        Some(text) => distinguisher(alloc, text),
        None => Err(Refusal::Field(FieldName::Rd)),
    }
}

/// The route distinguisher, if it is given; an inner `None` clears it.
pub(crate) fn given_rd(
    alloc: Global,
    body: &Value,
) -> Result<Option<Option<Distinguisher>>, Refusal>
    ensures { OrMemory (λ r. read_given RdField rd_of (view body.now) ≡ r) result }
{
    if member(body, FieldName::Rd).is_none() {
        return Ok(None);
    }
    Ok(Some(rd(alloc, body)?))
}

/// A truth value, which may be absent.
pub(crate) fn flag(body: &Value, name: FieldName, default: bool) -> Result<bool, Refusal>
    ensures { read_member name (flag_of default) (view body.now) ≡ result }
{
    match member(body, name) {
        None => Ok(default),
        Some(value) => match value.as_bool() {
            Some(flag) => Ok(flag),
            None => Err(Refusal::Field(name)),
        },
    }
}

/// A truth value, if it is given.
pub(crate) fn given_flag(body: &Value, name: FieldName) -> Result<Option<bool>, Refusal>
    ensures { read_given name (flag_of false) (view body.now) ≡ result }
{
    let Some(value) = member(body, name) else {
        return Ok(None);
    };
    match value.as_bool() {
        Some(flag) => Ok(Some(flag)),
        None => Err(Refusal::Field(name)),
    }
}
