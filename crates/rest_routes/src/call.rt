//! The call that a request asks for.

ghost use Rattle.std.specs.Prelude.{◌≡◌, ℕ, List, Some, IfOk};
ghost use Rattle.ipam_json.specs.Bodies.{OrMemory};
ghost use Rattle.rest_routes.specs.Requests.{IsListAsked, IsRowsAsked, IsRowAsked, IsRequest, IsWellMade, link_text, links_of};
ghost use Rattle.rest_routes.specs.Requests as spec;

use crate::parts::call_of_part;
use crate::route::{Method, Route};
use crate::table::Routes;
use ipam_data::calls::Call;
use ipam_data::kinds::Kind;
use ipam_data::replies::Refusal;
use ipam_data::text::Text;
use ipam_json::{Links, read_body, read_edit};
use ipam_words::kind_name;
use rest_query::{cut, link_query, read_listing};
use std::alloc::{AllocError, Global};

/// A call with no page before or after.
pub(crate) fn asks(call: Call) -> (Call, Links)
    ensures { result ≡ (call, spec.no_links) }
{
    let links = Links {
        next: None,
        previous: None,
    };
    (call, links)
}

/// The target of a page of a kind's rows.
fn link(
    alloc: Global,
    kind: Kind,
    query: &[u8],
    limit: u32,
    offset: u64,
) -> Result<Text, AllocError>
    ensures { IfOk result (λ t. t ≡ link_text kind query.now limit offset) }
{
    let query = link_query(alloc, kind, query, limit, offset)?;
    let query = query.as_str();
    let kind = kind_name(kind);
    Ok(Text::of(format!(in alloc; "/api/ipam/{kind}/?{query}")?))
}

/// The page before that of a limit and an offset.
fn previous(
    alloc: Global,
    kind: Kind,
    query: &[u8],
    limit: u32,
    offset: u32,
) -> Result<Option<Text>, AllocError>
    ensures { IfOk result (λ t. t ≡ (links_of kind query.now limit offset).previous) }
{
    if offset == 0 {
        return Ok(None);
    }
    let before = offset.saturating_sub(limit);
    Ok(Some(link(alloc, kind, query, limit, u64::from(before))?))
}

/// The pages after and before that of a limit and an offset.
fn links(
    alloc: Global,
    kind: Kind,
    query: &[u8],
    limit: u32,
    offset: u32,
) -> Result<Links, AllocError>
    ensures { IfOk result (λ l. l ≡ links_of kind query.now limit offset) }
{
    let after = u64::from(offset) + u64::from(limit);
    let next = link(alloc, kind, query, limit, after)?;
    let previous = previous(alloc, kind, query, limit, offset)?;
    Ok(Links {
        next: Some(next),
        previous,
    })
}

/// A page of a kind's rows.
fn call_of_list(alloc: Global, kind: Kind, query: &[u8]) -> Result<(Call, Links), Refusal>
    ensures asked { OrMemory (IsListAsked kind query.now) result }
    ensures well_made { IfOk result (λ asked. IsWellMade asked.0) }
{
    let listing = read_listing(alloc, kind, query)?;
    let Ok(links) = links(alloc, kind, query, listing.limit, listing.offset) else {
        return Err(Refusal::Memory);
    };
    let call = Call::List {
        kind,
        filter: listing.filter,
        limit: listing.limit,
        offset: listing.offset,
    };
    Ok((call, links))
}

/// What a method asks of the rows of a kind.
fn call_of_rows(
    alloc: Global,
    kind: Kind,
    method: Option<Method>,
    query: &[u8],
    body: &[u8],
) -> Result<(Call, Links), Refusal>
    ensures asked { OrMemory (IsRowsAsked kind method query.now body.now) result }
    ensures well_made { IfOk result (λ asked. IsWellMade asked.0) }
{
    match method {
        Some(Method::Get) => call_of_list(alloc, kind, query),
        Some(Method::Post) => {
            let draft = read_body(alloc, kind, body)?;
            Ok(asks(Call::Create { draft }))
        }
        Some(Method::Patch) => Err(Refusal::Method),
        Some(Method::Delete) => Err(Refusal::Method),
        None => Err(Refusal::Method),
    }
}

/// What a method asks of a row.
fn call_of_row(
    alloc: Global,
    kind: Kind,
    id: u32,
    method: Option<Method>,
    body: &[u8],
) -> Result<(Call, Links), Refusal>
    ensures asked { OrMemory (IsRowAsked kind id method body.now) result }
    ensures well_made { IfOk result (λ asked. IsWellMade asked.0) }
{
    match method {
        Some(Method::Get) => Ok(asks(Call::Get { kind, id })),
        Some(Method::Post) => Err(Refusal::Method),
        Some(Method::Patch) => {
            let edit = read_edit(alloc, kind, body)?;
            Ok(asks(Call::Change { id, edit }))
        }
        Some(Method::Delete) => Ok(asks(Call::Delete { kind, id })),
        None => Err(Refusal::Method),
    }
}

/// What a request asks of the register, by a table of the routes that is lent, with the links to the pages after and before that of
/// a list. `NoRoute` is returned if the path has no route, then `Method` if the route does not have the method, and then the
/// refusals of a body, or for a list those of a query; `Memory` may be returned in place of any answer. The body of a GET or a DELETE is
/// ignored.
pub fn read_call_by(
    alloc: Global,
    routes: &Routes,
    method: &[u8],
    target: &[u8],
    body: &[u8],
) -> Result<(Call, Links), Refusal>
    ensures request { OrMemory (IsRequest method.now target.now body.now) result }
    ensures well_made { IfOk result (λ asked. IsWellMade asked.0) }
{
    let (path, query) = cut(target);
    match routes.route_of(path) {
        None => Err(Refusal::NoRoute),
        Some(Route::Many(kind)) => { call_of_rows(alloc, kind, Method::named(method), query, body) }
        Some(Route::Single(kind, id)) => {
            call_of_row(alloc, kind, id, Method::named(method), body)
        }
        Some(Route::Within(part, id)) => {
            call_of_part(alloc, part, id, Method::named(method), query, body)
        }
    }
}

/// The same of one request alone, for which the table is built.
pub fn read_call(
    alloc: Global,
    method: &[u8],
    target: &[u8],
    body: &[u8],
) -> Result<(Call, Links), Refusal>
    ensures request { OrMemory (IsRequest method.now target.now body.now) result }
    ensures well_made { IfOk result (λ asked. IsWellMade asked.0) }
{
    match Routes::new(alloc) {
        Ok(routes) => read_call_by(alloc, &routes, method, target, body),
        Err(_) => Err(Refusal::Memory),
    }
}
