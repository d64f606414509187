//! What the query of a list asks for, and the links to other pages.

ghost use Rattle.std.specs.Prelude.{◌≡◌, IfOk, OnOk, Ok, string_bytes};
ghost use Rattle.ipam_json.specs.Outcomes.{OrMemory};
ghost use Rattle.ipam_data.specs.declared.replies.FieldName.TheVariants.{Limit, Offset};
ghost use Rattle.rest_query.specs.Query.{value_in};
ghost use Rattle.rest_query.specs.Readings.{IsLimit, IsOffset};
ghost use Rattle.rest_query.specs.Lists.{IsFilterOf, IsLimitAsked, IsListing, IsOffsetAsked, listing_of, kind_of, with_filters};
ghost use Rattle.rest_query.specs.Lists as spec;

use crate::address::{add_address_filters, address_filter};
use crate::aggregate::{add_aggregate_filters, aggregate_filter};
use crate::asked::{Available, Listing};
use crate::prefix::{add_prefix_filters, prefix_filter};
use crate::query::value;
use crate::range::{add_range_filters, range_filter};
use crate::readings::{DEFAULT_LIMIT, available_limit, limit, offset};
use crate::rir::{add_rir_filters, rir_filter};
use crate::role::{add_role_filters, role_filter};
use crate::vrf::{add_vrf_filters, vrf_filter};
use form_urlencoded::Serializer;
use ipam_data::calls::Filter;
use ipam_data::kinds::Kind;
use ipam_data::replies::{FieldName, Refusal};
use ipam_words::field_name;
use itoa::Buffer;
use std::alloc::{AllocError, Global};

/// The filter of a kind.
fn filter_of(alloc: Global, kind: Kind, query: &[u8]) -> Result<Filter, Refusal>
    ensures filter { OrMemory (IsFilterOf kind query.now) result }
    ensures kind { IfOk result (λ f. kind_of f ≡ kind) }
{
    match kind {
        Kind::Vrfs => match vrf_filter(alloc, query) {
            Ok(filter) => Ok(filter),
            Err(_) => Err(Refusal::Memory),
        },
        Kind::Rirs => match rir_filter(alloc, query) {
            Ok(filter) => Ok(filter),
            Err(_) => Err(Refusal::Memory),
        },
        Kind::Roles => match role_filter(alloc, query) {
            Ok(filter) => Ok(filter),
            Err(_) => Err(Refusal::Memory),
        },
        Kind::Aggregates => aggregate_filter(alloc, query),
        Kind::Prefixes => prefix_filter(alloc, query),
        Kind::Ranges => range_filter(alloc, query),
        Kind::Addresses => address_filter(alloc, query),
    }
}

/// The limit of a query.
fn limit_in(alloc: Global, query: &[u8], default: u32) -> Result<Option<u32>, AllocError>
    ensures { IfOk result (IsLimit default (value_in query.now Limit)) }
{
    let text = value(alloc, query, FieldName::Limit)?;
    Ok(limit(&text, default))
}

/// The offset of a query.
fn offset_in(alloc: Global, query: &[u8]) -> Result<Option<u32>, AllocError>
    ensures { IfOk result (IsOffset (value_in query.now Offset)) }
{
    let text = value(alloc, query, FieldName::Offset)?;
    Ok(offset(&text))
}

/// A filter with a limit and an offset.
fn listed(filter: Filter, limit: Option<u32>, offset: Option<u32>) -> Result<Listing, Refusal>
    ensures listing { listing_of (Ok filter) limit offset ≡ result }
    ensures filter { IfOk result (λ l. l.filter ≡ filter) }
{
    let Some(limit) = limit else {
        return Err(Refusal::Field(FieldName::Limit));
    };
    let Some(offset) = offset else {
        return Err(Refusal::Field(FieldName::Offset));
    };
    Ok(Listing {
        filter,
        limit,
        offset,
    })
}

/// What the query of a list asks for. `Field` names the first parameter that is malformed, in the order of the kind's filters,
/// then limit, then offset; `Memory` may be returned in place of any answer.
pub fn read_listing(alloc: Global, kind: Kind, query: &[u8]) -> Result<Listing, Refusal>
    ensures listing { OrMemory (IsListing kind query.now) result }
    ensures kind { IfOk result (λ l. kind_of l.filter ≡ kind) }
{
    let Ok(limit) = limit_in(alloc, query, DEFAULT_LIMIT) else {
        return Err(Refusal::Memory);
    };
    let Ok(offset) = offset_in(alloc, query) else {
        return Err(Refusal::Memory);
    };
    match filter_of(alloc, kind, query) {
        Ok(filter) => listed(filter, limit, offset),
        Err(refusal) => Err(refusal),
    }
}

/// What the query of a list of available things asks for: a limit alone, so that other parameters do not count. `Field` is
/// returned if it is malformed; `Memory` may be returned in place of any answer.
pub fn read_limit(alloc: Global, available: Available, query: &[u8]) -> Result<u32, Refusal>
    ensures { OrMemory (IsLimitAsked available query.now) result }
{
    let Ok(limit) = limit_in(alloc, query, available_limit(available)) else {
        return Err(Refusal::Memory);
    };
    match limit {
        Some(limit) => Ok(limit),
        None => Err(Refusal::Field(FieldName::Limit)),
    }
}

/// How many rows of a list come before the page that a query asks for: none if it says nothing. `Field` is returned if that is malformed;
/// `Memory` may be returned in place of any answer.
pub fn read_offset(alloc: Global, query: &[u8]) -> Result<u32, Refusal>
    ensures { OrMemory (IsOffsetAsked query.now) result }
{
    let Ok(offset) = offset_in(alloc, query) else {
        return Err(Refusal::Memory);
    };
    match offset {
        Some(offset) => Ok(offset),
        None => Err(Refusal::Field(FieldName::Offset)),
    }
}

/// Adds the filters of a kind that are given to a form.
fn add_filters(
    alloc: Global,
    kind: Kind,
    form: &mut Serializer<Global>,
    query: &[u8],
) -> Result<(), AllocError>
    ensures form { OnOk result (form.new.form ≡ with_filters kind query.now form.old.form) }
    ensures prefix { OnOk result (form.new.prefix ≡ form.old.prefix) }
{
    match kind {
        Kind::Vrfs => add_vrf_filters(alloc, form, query),
        Kind::Rirs => add_rir_filters(alloc, form, query),
        Kind::Roles => add_role_filters(alloc, form, query),
        Kind::Aggregates => add_aggregate_filters(alloc, form, query),
        Kind::Prefixes => add_prefix_filters(alloc, form, query),
        Kind::Ranges => add_range_filters(alloc, form, query),
        Kind::Addresses => add_address_filters(alloc, form, query),
    }
}

/// The query of a link to another page: the filters that are given, as they were given, then limit and offset. `Err` means out
/// of memory.
pub fn link_query(
    alloc: Global,
    kind: Kind,
    query: &[u8],
    limit: u32,
    offset: u64,
) -> Result<String, AllocError>
    ensures { IfOk result (λ text. string_bytes text ≡ spec.link_query kind query.now limit offset) }
{
    let mut form = Serializer::new(String::new(alloc));
    add_filters(alloc, kind, &mut form, query)?;
    let mut digits = Buffer::new();
    form.append_pair(field_name(FieldName::Limit), digits.format(limit))?;
    let mut digits = Buffer::new();
    form.append_pair(field_name(FieldName::Offset), digits.format(offset))?;
    Ok(form.finish())
}
