//! The body that asks for a range.

ghost use Rattle.std.specs.Prelude.{◌≡◌, ◌⊎◌, IfOk, IfErr};
ghost use Rattle.serde_json.specs.View.{view};
ghost use Rattle.ipam_data.specs.declared.replies.Refusal.TheVariants.{BadJson, Memory};
ghost use Rattle.ipam_json.specs.Bodies.{IsObjectText, IsNoObjectText};
ghost use Rattle.pool_json.specs.Bodies.{IsRangeBody, OrWant, range_draft};

use crate::members::{name, number};
use ipam_data::replies::Refusal;
use number_pools::PoolKind;
use serde_json::Value;
use std::alloc::Global;
use stored_tables::tables::Text;

/// Why a request is refused before the pools are asked.
#[derive(Clone, Copy, Debug)]
pub enum RequestRefusal {
    /// For a reason that the register has too, in its words; or out of memory.
    Common(Refusal),
    /// The first number of a range is missing or malformed.
    Start,
    /// The last number of a range is missing or malformed.
    End,
    /// The number of an item of this kind is missing or malformed, or that of a list.
    Number(PoolKind),
    /// The range that a list of this kind asks for is malformed.
    Range(PoolKind),
}

/// The range that a body asks for. Whether its numbers fit is a rule of the pools.
#[derive(Debug, Drop)]
pub struct RangeDraft {
    pub name: Text,
    pub first: u32,
    pub last: u32,
}

/// The object that a body is.
pub(crate) fn read_object(alloc: Global, body: &[u8]) -> Result<Value, Refusal>
    ensures ok { IfOk result (λ v. IsObjectText body.now (view v)) }
    ensures err { IfErr result (λ e. (e ≡ Memory) ⊎ (IsNoObjectText body.now × (e ≡ BadJson))) }
{
    match Value::from_slice(alloc, body) {
        Ok(value) if value.is_object() => Ok(value),
        Err(error) if error.is_memory() => Err(Refusal::Memory),
        _ => Err(Refusal::BadJson),
    }
}

/// The range that an object asks for.
fn range_in(alloc: Global, object: &Value) -> Result<RangeDraft, RequestRefusal>
    ensures { OrWant (λ r. range_draft (view object.now) ≡ r) result }
{
    let name = match name(alloc, object) {
        Ok(name) => name,
        Err(refusal) => return Err(RequestRefusal::Common(refusal)),
    };
    let Some(first) = number(object, "start") else {
        return Err(RequestRefusal::Start);
    };
    let Some(last) = number(object, "end") else {
        return Err(RequestRefusal::End);
    };
    Ok(RangeDraft { name, first, last })
}

/// What the body of a new range asks for. `BadJson` is returned if the body is no JSON text (RFC 8259) or no object; then the first of
/// `name`, `start` and `end` that is missing or malformed is answered; and `Memory` may be returned in place of any answer.
pub fn read_range(alloc: Global, body: &[u8]) -> Result<RangeDraft, RequestRefusal>
    ensures { OrWant (IsRangeBody body.now) result }
{
    match read_object(alloc, body) {
        Ok(object) => range_in(alloc, &object),
        Err(refusal) => Err(RequestRefusal::Common(refusal)),
    }
}
