//! Members that are numbers: ids of other rows, weights, and lengths of blocks.

ghost use Rattle.std.specs.Prelude.{◌≡◌, Some, None};
ghost use Rattle.serde_json.specs.View.{view};
ghost use Rattle.ipam_json.specs.Members.{id_of, id_within, length_within, prefix_length_of, row_id_of, weight_of, weight_within};
ghost use Rattle.ipam_json.specs.Outcomes.{field, read_member, read_given};
ghost use Rattle.ipam_data.specs.declared.replies.FieldName.TheVariants.{PrefixLength as PrefixLengthField, Weight as WeightField};

use crate::members::member;
use ipam_data::replies::{FieldName, Refusal};
use ipam_data::text::Weight;
use serde_json::Value;

/// A number that is an id.
fn id_of_number(number: u64) -> Option<u32>
    ensures { result ≡ id_within number }
{
    match u32::try_from(number) {
        Ok(id) if id > 0 => Some(id),
        _ => None,
    }
}

/// The id that a value is; null is none.
fn id_of_value(value: &Value) -> Option<Option<u32>>
    ensures { result ≡ id_of (Some (view value.now)) }
{
    if value.is_null() {
        return Some(None);
    }
    let number = value.as_u64()?;
    let id = id_of_number(number)?;
    Some(Some(id))
}

/// The id of another row, which may be absent or null.
pub(crate) fn id(body: &Value, name: FieldName) -> Result<Option<u32>, Refusal>
    ensures { read_member name id_of (view body.now) ≡ result }
{
    let Some(value) = member(body, name) else {
        return Ok(None);
    };
    match id_of_value(value) {
        Some(id) => Ok(id),
        None => Err(Refusal::Field(name)),
    }
}

/// The id of another row, if it is given; an inner `None` clears it.
pub(crate) fn given_id(body: &Value, name: FieldName) -> Result<Option<Option<u32>>, Refusal>
    ensures { read_given name id_of (view body.now) ≡ result }
{
    let Some(value) = member(body, name) else {
        return Ok(None);
    };
    match id_of_value(value) {
        Some(id) => Ok(Some(id)),
        None => Err(Refusal::Field(name)),
    }
}

/// The id that a value is; null is no id.
fn row_id_in(value: &Value) -> Option<u32>
    ensures { result ≡ row_id_of (Some (view value.now)) }
{
    let number = value.as_u64()?;
    id_of_number(number)
}

/// The id of another row, which is required.
pub(crate) fn row_id(body: &Value, name: FieldName) -> Result<u32, Refusal>
    ensures { read_member name row_id_of (view body.now) ≡ result }
{
    let Some(value) = member(body, name) else {
        return Err(Refusal::Field(name));
    };
    match row_id_in(value) {
        Some(id) => Ok(id),
        None => Err(Refusal::Field(name)),
    }
}

/// The id of another row, if it is given.
pub(crate) fn given_row_id(body: &Value, name: FieldName) -> Result<Option<u32>, Refusal>
    ensures { read_given name row_id_of (view body.now) ≡ result }
{
    let Some(value) = member(body, name) else {
        return Ok(None);
    };
    match row_id_in(value) {
        Some(id) => Ok(Some(id)),
        None => Err(Refusal::Field(name)),
    }
}

/// A number that is a length.
fn length_of_number(number: u64) -> Option<u8>
    ensures { result ≡ length_within number }
{
    match u8::try_from(number) {
        Ok(len) => Some(len),
        Err(_) => None,
    }
}

/// The length that a value is.
fn length_in(value: &Value) -> Option<u8>
    ensures { result ≡ prefix_length_of (Some (view value.now)) }
{
    let number = value.as_u64()?;
    length_of_number(number)
}

/// The length of a block that is wanted, which is required.
pub(crate) fn prefix_length(body: &Value) -> Result<u8, Refusal>
    ensures { read_member PrefixLengthField prefix_length_of (view body.now) ≡ result }
{
    let Some(value) = member(body, FieldName::PrefixLength) else {
        return Err(Refusal::Field(FieldName::PrefixLength));
    };
    match length_in(value) {
        Some(len) => Ok(len),
        None => Err(Refusal::Field(FieldName::PrefixLength)),
    }
}

/// A number that is a weight.
fn weight_of_number(number: u64) -> Option<Weight>
    ensures { result ≡ weight_within number }
{
    match u16::try_from(number) {
        Ok(weight) => Weight::of(weight),
        Err(_) => None,
    }
}

/// The weight that a value is.
fn weight_in(value: &Value) -> Option<Weight>
    ensures { result ≡ weight_of (Some (view value.now)) }
{
    let number = value.as_u64()?;
    weight_of_number(number)
}

/// A weight that was read.
fn weighed(weight: Option<Weight>) -> Result<Weight, Refusal>
    ensures { field WeightField weight ≡ result }
{
    match weight {
        Some(weight) => Ok(weight),
        None => Err(Refusal::Field(FieldName::Weight)),
    }
}

/// The weight of a role, which may be absent.
pub(crate) fn weight(body: &Value) -> Result<Weight, Refusal>
    ensures { read_member WeightField weight_of (view body.now) ≡ result }
{
    match member(body, FieldName::Weight) {
        None => weighed(weight_of_number(1000)),
        Some(value) => weighed(weight_in(value)),
    }
}

/// The weight of a role, if it is given.
pub(crate) fn given_weight(body: &Value) -> Result<Option<Weight>, Refusal>
    ensures { read_given WeightField weight_of (view body.now) ≡ result }
{
    let Some(value) = member(body, FieldName::Weight) else {
        return Ok(None);
    };
    match weight_in(value) {
        Some(weight) => Ok(Some(weight)),
        None => Err(Refusal::Field(FieldName::Weight)),
    }
}
