//! The bodies of claims: one object, or a list of objects. What an object gives is with its kind of item.

ghost use Rattle.std.specs.Prelude.{◌≡◌, ◌⊎◌, IfOk, IfErr, map};
ghost use Rattle.std.specs.List.{list_all};
ghost use Rattle.serde_json.specs.View.{view};
ghost use Rattle.ipam_data.specs.declared.replies.Refusal.TheVariants.{BadJson, Memory};
ghost use Rattle.ipam_json.specs.Claims.{IsJsonText, IsNoJsonText, is_object, list_checked};

use ipam_data::replies::{FieldName, Refusal};
use serde_json::Value;
use std::alloc::Global;

/// The JSON value that a body is.
pub(crate) fn read_value(alloc: Global, body: &[u8]) -> Result<Value, Refusal>
    ensures ok { IfOk result (λ v. IsJsonText body.now (view v)) }
    ensures err { IfErr result (λ e. (e ≡ Memory) ⊎ (IsNoJsonText body.now × (e ≡ BadJson))) }
{
    match Value::from_slice(alloc, body) {
        Ok(value) => Ok(value),
        Err(error) if error.is_memory() => Err(Refusal::Memory),
        Err(_) => Err(Refusal::BadJson),
    }
}

/// Whether all of these are objects.
fn are_objects(list: &[Value]) -> bool
    ensures { result ≡ list_all (λ value. is_object (view value)) list.now }
{
    list.iter().all(|value| value.is_object())
}

/// Sees that a list has objects alone, and one at least.
pub(crate) fn check_list(list: &[Value]) -> Result<(), Refusal>
    ensures { list_checked (map view list.now) ≡ result }
{
    if list.is_empty() {
        return Err(Refusal::Field(FieldName::Body));
    }
    if are_objects(list) {
        return Ok(());
    }
    Err(Refusal::BadJson)
}
