//! The parameters of a query.

ghost use Rattle.std.specs.Prelude.{◌≡◌, None, Some, IfOk, OnOk, if◌then◌else◌, bytes_eq, option_copied};
ghost use Rattle.form_urlencoded.specs.Form.{raw_pairs};
ghost use Rattle.ipam_data.specs.Answers.{field_text};
ghost use Rattle.rest_query.specs.Query.{path_in, query_in, text_of, newest, parameter, value_in, with_given, with_value};

use form_urlencoded::{Serializer, decode, raw_pairs};
use ipam_data::replies::FieldName;
use ipam_data::text::Text;
use ipam_words::field_name;
use std::alloc::{AllocError, Global};

/// What is before the first question mark of a target, and what follows it, which is nothing if it has none.
pub fn cut(target: &[u8]) -> (&[u8], &[u8])
    ensures path { result.0.now ≡ path_in target.now }
    ensures query { result.1.now ≡ query_in target.now }
{
    match target.iter().position(|&byte| byte == b'?') {
        Some(place) => (&target[..place], &target[place + 1..]),
        None => (target, &[]),
    }
}

/// Whether an encoded name is this one.
fn is_named(alloc: Global, key: &[u8], name: &str) -> Result<bool, AllocError>
    ensures { IfOk result (λ t. t ≡ bytes_eq (text_of key.now) name.now) }
{
    let text = decode(alloc, key)?;
    Ok(text.as_str() == name)
}

/// The value of a pair if it has the name, and else what was found before.
fn newer<'a>(
    alloc: Global,
    found: Option<&'a [u8]>,
    key: &[u8],
    value: &'a [u8],
    name: &str,
) -> Result<Option<&'a [u8]>, AllocError>
    ensures { IfOk result (λ r. option_copied r ≡ (if bytes_eq (text_of key.now) name.now then Some value.now else option_copied found.entry)) }
{
    if is_named(alloc, key, name)? {
        return Ok(Some(value));
    }
    Ok(found)
}

/// The last value of a name, still encoded.
fn last_value<'a>(
    alloc: Global,
    query: &'a [u8],
    name: &str,
) -> Result<Option<&'a [u8]>, AllocError>
    ensures { IfOk result (λ r. option_copied r ≡ newest name.now None (raw_pairs query.now)) }
{
    let mut found: Option<&'a [u8]> = None;
    'pairs: for (key, value) in raw_pairs(query) {
        found = newer(alloc, found, key, value, name)?;
    }
    Ok(found)
}

/// The value of a parameter of this name, the last one if the query has more than one: decoded as `application/x-www-form-urlencoded`,
/// the form of the WHATWG URL standard. The one error means out of memory.
#[tactic(auto, unfolding(crate::specs::Query::parameter))]
pub fn parameter_value(alloc: Global, query: &[u8], name: &str) -> Result<Option<Text>, AllocError>
    ensures { IfOk result (λ r. r ≡ parameter query.now name.now) }
{
    match last_value(alloc, query, name)? {
        Some(value) => Ok(Some(Text::of(decode(alloc, value)?.into_owned(alloc)?))),
        None => Ok(None),
    }
}

/// The value of a parameter, if the query has it.
pub(crate) fn value(
    alloc: Global,
    query: &[u8],
    name: FieldName,
) -> Result<Option<Text>, AllocError>
    ensures { IfOk result (λ r. r ≡ value_in query.now name) }
{
    parameter_value(alloc, query, field_name(name))
}

/// Adds a parameter of the query, if it has it, to a form.
pub(crate) fn add_value(
    alloc: Global,
    form: &mut Serializer<Global>,
    query: &[u8],
    name: FieldName,
) -> Result<(), AllocError>
    ensures form { OnOk result (form.new.form ≡ with_value query.now name form.old.form) }
    ensures prefix { OnOk result (form.new.prefix ≡ form.old.prefix) }
{
    match value(alloc, query, name)? {
        Some(value) => form.append_pair(field_name(name), value.as_str()),
        None => Ok(()),
    }
}
