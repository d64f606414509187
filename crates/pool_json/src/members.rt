//! Members of the object that a body is: a name, and whole numbers.

ghost use Rattle.std.specs.Prelude.{◌≡◌, Some, IfOk, IfErr, is_some, option_map};
ghost use Rattle.serde_json.specs.Find.{get};
ghost use Rattle.serde_json.specs.View.{view};
ghost use Rattle.ipam_data.specs.declared.replies.FieldName.TheVariants.{Name as NameField};
ghost use Rattle.ipam_data.specs.declared.replies.Refusal.TheVariants.{Memory};
ghost use Rattle.ipam_json.specs.Members.{is_plain, name_of};
ghost use Rattle.ipam_json.specs.Outcomes.{OrMemory, field, read_given, read_member, value_of};
ghost use Rattle.pool_json.specs.Bodies.{asn_name_of, asn_named, number_of, number_within};
ghost use Rattle.pool_json.specs.Edits.{given_number, number_or};

use crate::bodies::RequestRefusal;
use ipam_data::replies::{FieldName, Refusal};
use ipam_data::text::{NameBounds, Tested};
use serde_json::Value;
use std::alloc::Global;
use stored_tables::tables::Text;

/// The value of a member, if the object has it.
fn member<'a>(body: &'a Value, name: &str) -> Option<&'a Value>
    ensures { option_map (λ v. view v.now) result ≡ get name.now (view body.now) }
{
    body.get(name)
}

/// Whether the text has the bounds of a name.
fn is_name(text: &str) -> bool
    ensures { result ≡ is_plain 1 100 text.now }
{
    NameBounds::has(text)
}

/// A text of the caller's, or out of memory.
fn owned(alloc: Global, text: &str) -> Result<Text, Refusal>
    ensures ok { IfOk result (λ t. t ≡ text.now) }
    ensures err { IfErr result (λ e. e ≡ Memory) }
{
    match String::from_str(alloc, text) {
        Ok(text) => Ok(Text::of(text)),
        Err(_) => Err(Refusal::Memory),
    }
}

/// The name of a row.
pub(crate) fn name(alloc: Global, body: &Value) -> Result<Text, Refusal>
    ensures { OrMemory (λ r. read_member NameField name_of (view body.now) ≡ r) result }
{
    let Some(text) = member(body, "name").and_then(Value::as_str) else {
        return Err(Refusal::Field(FieldName::Name));
    };
    if is_name(text) {
        return owned(alloc, text);
    }
    Err(Refusal::Field(FieldName::Name))
}

/// The name of a chosen AS number, as a text gives it.
fn asn_named(alloc: Global, text: &str) -> Result<Text, Refusal>
    ensures { OrMemory (λ r. field NameField (asn_named text.now) ≡ r) result }
{
    if text.is_empty() {
        return owned(alloc, text);
    }
    if is_name(text) {
        return owned(alloc, text);
    }
    Err(Refusal::Field(FieldName::Name))
}

/// The name of a chosen AS number, which may be absent or empty.
pub(crate) fn asn_name(alloc: Global, body: &Value) -> Result<Text, Refusal>
    ensures { OrMemory (λ r. read_member NameField asn_name_of (view body.now) ≡ r) result }
{
    let Some(value) = member(body, "name") else {
        return owned(alloc, "");
    };
    match value.as_str() {
        Some(text) => asn_named(alloc, text),
        None => Err(Refusal::Field(FieldName::Name)),
    }
}

/// A number that a range may have as an end.
fn within(number: u64) -> Option<u32>
    ensures { result ≡ number_within number }
{
    match u32::try_from(number) {
        Ok(number) => Some(number),
        Err(_) => None,
    }
}

/// The number that a value is.
fn number_in(value: &Value) -> Option<u32>
    ensures { result ≡ number_of (Some (view value.now)) }
{
    let number = value.as_u64()?;
    within(number)
}

/// A number of a range, if the object has it.
pub(crate) fn number(body: &Value, name: &str) -> Option<u32>
    ensures { result ≡ number_of (get name.now (view body.now)) }
{
    match member(body, name) {
        Some(value) => number_in(value),
        None => None,
    }
}

// ---- members of an edit, which may be absent

/// Whether the object has a name.
fn has_name(body: &Value) -> bool
    ensures { result ≡ is_some (value_of NameField (view body.now)) }
{
    match member(body, "name") {
        Some(_) => true,
        None => false,
    }
}

/// The name of a row, if it is given.
pub(crate) fn given_name(alloc: Global, body: &Value) -> Result<Option<Text>, Refusal>
    ensures { OrMemory (λ r. read_given NameField name_of (view body.now) ≡ r) result }
{
    if !has_name(body) {
        return Ok(None);
    }
    match name(alloc, body) {
        Ok(name) => Ok(Some(name)),
        Err(refusal) => Err(refusal),
    }
}

/// The name of an AS number, if it is given. It may be empty.
pub(crate) fn given_asn_name(alloc: Global, body: &Value) -> Result<Option<Text>, Refusal>
    ensures { OrMemory (λ r. read_given NameField asn_name_of (view body.now) ≡ r) result }
{
    if !has_name(body) {
        return Ok(None);
    }
    match asn_name(alloc, body) {
        Ok(name) => Ok(Some(name)),
        Err(refusal) => Err(refusal),
    }
}

/// The number that a value is, or this refusal.
fn number_or(value: &Value, why: RequestRefusal) -> Result<Option<u32>, RequestRefusal>
    ensures { result ≡ number_or why (number_of (Some (view value.now))) }
{
    match number_in(value) {
        Some(number) => Ok(Some(number)),
        None => Err(why),
    }
}

/// A number of a range, if it is given. One that is no number is this refusal.
pub(crate) fn given_number(
    body: &Value,
    name: &str,
    why: RequestRefusal,
) -> Result<Option<u32>, RequestRefusal>
    ensures { result ≡ given_number why (get name.now (view body.now)) }
{
    match member(body, name) {
        Some(value) => number_or(value, why),
        None => Ok(None),
    }
}
