//! The page of members that a query asks for.

ghost use Rattle.std.specs.Prelude.{◌≡◌, ℕ, IfOk};
ghost use Rattle.ipam_data.specs.declared.replies.FieldName.TheVariants.{Name as NameField};
ghost use Rattle.pool_json.specs.Bodies.{OrWant};
ghost use Rattle.pool_rest.specs.Listing.{IsMoved, IsPaged, IsQuery, IsTested};
ghost use Rattle.rest_query.specs.Query.{parameter, value_in};
ghost use Rattle.rest_query.specs.Readings.{IsRowTest};

use ipam_data::replies::{FieldName, Refusal};
use ipam_words::field_name;
use number_pools::{MemberQuery, PoolKind};
use pool_json::{RequestRefusal, number_name, range_name};
use rest_query::{Available, parameter_value, read_limit, read_offset, row_test};
use std::alloc::{AllocError, Global};
use stored_tables::tables::Text;

/// Out of memory, as a refusal.
fn want() -> RequestRefusal
    ensures { result ≡ RequestRefusal.Common Refusal.Memory }
{
    RequestRefusal::Common(Refusal::Memory)
}

/// A parameter of a query that is a number from 1: `None` is one that is malformed, and an inner `None` one that is not given.
fn number_in(alloc: Global, query: &[u8], name: &str) -> Result<Option<Option<u32>>, AllocError>
    ensures { IfOk result (λ n. IsRowTest (parameter query.now name.now) n) }
{
    let text = parameter_value(alloc, query, name)?;
    Ok(row_test(&text))
}

/// The name that a query asks for.
fn name_in(alloc: Global, query: &[u8]) -> Result<Option<Text>, AllocError>
    ensures { IfOk result (λ t. t ≡ value_in query.now NameField) }
{
    match parameter_value(alloc, query, field_name(FieldName::Name))? {
        Some(name) => Ok(Some(Text::of(String::from_str(alloc, name.as_str())?))),
        None => Ok(None),
    }
}

/// The query of these parts, with the offset that is asked for.
fn moved(
    alloc: Global,
    number: Option<u32>,
    range: Option<u32>,
    name: Option<Text>,
    limit: u32,
    query: &[u8],
) -> Result<MemberQuery, RequestRefusal>
    ensures { OrWant (IsMoved (λ offset. record { number = number; range = range; name = name; limit = limit; offset = offset }) query.now) result }
{
    match read_offset(alloc, query) {
        Ok(offset) => Ok(MemberQuery {
            number,
            range,
            name,
            limit,
            offset,
        }),
        Err(refusal) => Err(RequestRefusal::Common(refusal)),
    }
}

/// The query of these parts, with the limit and the offset that are asked for.
fn paged(
    alloc: Global,
    number: Option<u32>,
    range: Option<u32>,
    name: Option<Text>,
    query: &[u8],
) -> Result<MemberQuery, RequestRefusal>
    ensures { OrWant (IsPaged (λ limit offset. record { number = number; range = range; name = name; limit = limit; offset = offset }) query.now) result }
{
    match read_limit(alloc, Available::Addrs, query) {
        Ok(limit) => moved(alloc, number, range, name, limit, query),
        Err(refusal) => Err(RequestRefusal::Common(refusal)),
    }
}

/// The query of these tests, each of which may be malformed.
fn tested(
    alloc: Global,
    kind: PoolKind,
    number: Option<Option<u32>>,
    range: Option<Option<u32>>,
    query: &[u8],
) -> Result<MemberQuery, RequestRefusal>
    ensures { OrWant (IsTested kind query.now number range) result }
{
    let Some(number) = number else {
        return Err(RequestRefusal::Number(kind));
    };
    let Some(range) = range else {
        return Err(RequestRefusal::Range(kind));
    };
    match name_in(alloc, query) {
        Ok(name) => paged(alloc, number, range, name, query),
        Err(AllocError) => Err(want()),
    }
}

/// The page of the members of a kind that a query asks for. The first of its number, range, limit and offset that is malformed is answered;
/// `Memory` may be returned in place of any answer.
pub(crate) fn read_query(
    alloc: Global,
    kind: PoolKind,
    query: &[u8],
) -> Result<MemberQuery, RequestRefusal>
    ensures { OrWant (IsQuery kind query.now) result }
{
    let Ok(number) = number_in(alloc, query, number_name(kind)) else {
        return Err(want());
    };
    let Ok(range) = number_in(alloc, query, range_name(kind)) else {
        return Err(want());
    };
    tested(alloc, kind, number, range, query)
}
