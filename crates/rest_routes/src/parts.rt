//! The call that a request of a part of a row asks for: what is available listed or claimed, and how much is used.

ghost use Rattle.std.specs.Prelude.{◌≡◌, IfOk};
ghost use Rattle.ipam_data.specs.declared.calls.Call.TheVariants.{PrefixAddrs, RangeAddrs, ClaimPrefixAddrs, ClaimRangeAddrs};
ghost use Rattle.ipam_json.specs.Bodies.{OrMemory};
ghost use Rattle.rest_routes.specs.Requests.{IsAddrsAsked, IsBlocksAsked, IsPartAsked, IsWellMade};
ghost use Rattle.rest_routes.specs.Requests as spec;

use crate::call::asks;
use crate::route::{Method, RowPart};
use ipam_data::calls::Call;
use ipam_data::kinds::Kind;
use ipam_data::replies::Refusal;
use ipam_json::{Links, read_addr_claim, read_block_claim};
use rest_query::{Available, read_limit};
use std::alloc::Global;

/// What a method asks of the available blocks of a prefix.
fn call_of_blocks(
    alloc: Global,
    id: u32,
    method: Option<Method>,
    query: &[u8],
    body: &[u8],
) -> Result<(Call, Links), Refusal>
    ensures asked { OrMemory (IsBlocksAsked id method query.now body.now) result }
    ensures well_made { IfOk result (λ asked. IsWellMade asked.0) }
{
    match method {
        Some(Method::Get) => {
            let limit = read_limit(alloc, Available::Blocks, query)?;
            Ok(asks(Call::Blocks { id, limit }))
        }
        Some(Method::Post) => {
            let (answered, items) = read_block_claim(alloc, body)?;
            Ok(asks(Call::ClaimBlocks {
                id,
                answered,
                items,
            }))
        }
        Some(Method::Patch) => Err(Refusal::Method),
        Some(Method::Delete) => Err(Refusal::Method),
        None => Err(Refusal::Method),
    }
}

/// What a method asks of the available addresses of a prefix.
fn call_of_prefix_addrs(
    alloc: Global,
    id: u32,
    method: Option<Method>,
    query: &[u8],
    body: &[u8],
) -> Result<(Call, Links), Refusal>
    ensures asked { OrMemory (IsAddrsAsked (PrefixAddrs id) (ClaimPrefixAddrs id) method query.now body.now) result }
    ensures well_made { IfOk result (λ asked. IsWellMade asked.0) }
{
    match method {
        Some(Method::Get) => {
            let limit = read_limit(alloc, Available::Addrs, query)?;
            Ok(asks(Call::PrefixAddrs { id, limit }))
        }
        Some(Method::Post) => {
            let (answered, items) = read_addr_claim(alloc, body)?;
            Ok(asks(Call::ClaimPrefixAddrs {
                id,
                answered,
                items,
            }))
        }
        Some(Method::Patch) => Err(Refusal::Method),
        Some(Method::Delete) => Err(Refusal::Method),
        None => Err(Refusal::Method),
    }
}

/// What a method asks of the available addresses of a range.
fn call_of_range_addrs(
    alloc: Global,
    id: u32,
    method: Option<Method>,
    query: &[u8],
    body: &[u8],
) -> Result<(Call, Links), Refusal>
    ensures asked { OrMemory (IsAddrsAsked (RangeAddrs id) (ClaimRangeAddrs id) method query.now body.now) result }
    ensures well_made { IfOk result (λ asked. IsWellMade asked.0) }
{
    match method {
        Some(Method::Get) => {
            let limit = read_limit(alloc, Available::Addrs, query)?;
            Ok(asks(Call::RangeAddrs { id, limit }))
        }
        Some(Method::Post) => {
            let (answered, items) = read_addr_claim(alloc, body)?;
            Ok(asks(Call::ClaimRangeAddrs {
                id,
                answered,
                items,
            }))
        }
        Some(Method::Patch) => Err(Refusal::Method),
        Some(Method::Delete) => Err(Refusal::Method),
        None => Err(Refusal::Method),
    }
}

/// What a method asks of the figure of a row.
fn call_of_figure(kind: Kind, id: u32, method: Option<Method>) -> Result<(Call, Links), Refusal>
    ensures asked { result ≡ spec.figure_asked kind id method }
    ensures well_made { IfOk result (λ asked. IsWellMade asked.0) }
{
    match method {
        Some(Method::Get) => Ok(asks(Call::Utilization { kind, id })),
        Some(Method::Post) => Err(Refusal::Method),
        Some(Method::Patch) => Err(Refusal::Method),
        Some(Method::Delete) => Err(Refusal::Method),
        None => Err(Refusal::Method),
    }
}

/// What a method asks of a part of a row.
pub(crate) fn call_of_part(
    alloc: Global,
    part: RowPart,
    id: u32,
    method: Option<Method>,
    query: &[u8],
    body: &[u8],
) -> Result<(Call, Links), Refusal>
    ensures asked { OrMemory (IsPartAsked part id method query.now body.now) result }
    ensures well_made { IfOk result (λ asked. IsWellMade asked.0) }
{
    match part {
        RowPart::PrefixBlocks => call_of_blocks(alloc, id, method, query, body),
        RowPart::PrefixAddresses => call_of_prefix_addrs(alloc, id, method, query, body),
        RowPart::RangeAddresses => call_of_range_addrs(alloc, id, method, query, body),
        RowPart::PrefixUtilization => call_of_figure(Kind::Prefixes, id, method),
        RowPart::RangeUtilization => call_of_figure(Kind::Ranges, id, method),
        RowPart::AggregateUtilization => call_of_figure(Kind::Aggregates, id, method),
    }
}
