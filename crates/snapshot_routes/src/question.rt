//! What a request asks of a snapshot.

ghost use Rattle.std.specs.Prelude.{◌≡◌, ◌≢◌, IfOk, Some};
ghost use Rattle.http_session.specs.Steps.{framed};
ghost use Rattle.snapshot_routes.specs.Questions.{IsAskedByGet, IsLeast, IsQuestion, IsWellAsked};
ghost use Rattle.snapshot_routes.specs.Questions as spec;

use http_session::HttpRequest;
use ipam_data::calls::Call;
use ipam_data::kinds::Kind;
use ipam_data::replies::Refusal;
use ipam_data::text::Text;
use ipam_json::Links;
use rest_answers::is_want;
use rest_query::{cut, number_below, parameter_value};
use rest_routes::{Method, Route, Routes, read_call_by};
use std::alloc::{AllocError, Global};

/// One more than the greatest number of changes that can be asked for: it has 19 digits at most.
const LEAST_BOUND: u64 = 10_000_000_000_000_000_000;

/// Why nothing is read for a request.
#[derive(Debug, Drop)]
pub enum Unread {
    /// The path is not one of a snapshot.
    NoRoute,
    /// The method is not GET.
    Method,
    /// The parameter `least` is malformed.
    Least,
    /// Another parameter is malformed.
    Query(Refusal),
}

/// What a request asks for.
#[derive(Drop)]
pub enum Question {
    /// The reply to a call, after so many changes at least; the links are those of its page.
    Reads {
        call: Call,
        links: Links,
        least: u64,
    },
    /// Nothing.
    Refused(Unread),
}

/// Whether a snapshot has the rows of a kind.
fn is_kept(kind: Kind) -> bool
    ensures { result ≡ spec.is_kept kind }
{
    match kind {
        Kind::Vrfs => true,
        Kind::Prefixes => true,
        _ => false,
    }
}

/// Whether a route is one of a snapshot: the rows of a kind that it has, or one of these rows.
fn is_served(route: Option<Route>) -> bool
    ensures { result ≡ spec.is_served route }
{
    match route {
        Some(Route::Many(kind)) => is_kept(kind),
        Some(Route::Single(kind, _)) => is_kept(kind),
        _ => false,
    }
}

/// The number of changes that are asked for at least: 0 if the parameter is absent, and `None` if it is malformed.
fn least_of(text: &Option<Text>) -> Option<u64>
    ensures { IsLeast text.now result }
{
    let Some(text) = text else {
        return Some(0);
    };
    number_below(text.as_str(), LEAST_BOUND)
}

/// A request with a refused query. `Err` means out of memory, as what was refused.
fn refused(refusal: Refusal) -> Result<Question, AllocError>
    ensures { IfOk result (λ q. (refusal ≢ Refusal.Memory) × (q ≡ Question.Refused (Unread.Query refusal))) }
{
    if is_want(&refusal) {
        drop(refusal);
        return Err(AllocError);
    }
    Ok(Question::Refused(Unread::Query(refusal)))
}

/// What a request asks for, after so many changes at least: what it asks of the register. `Err` means out of memory.
fn question_after(
    alloc: Global,
    routes: &Routes,
    request: &HttpRequest,
    least: u64,
) -> Result<Question, AllocError>
    ensures question { IfOk result (spec.IsAskedAfter (Some least) (framed request.now)) }
    ensures well_made { IfOk result IsWellAsked }
{
    match read_call_by(
        alloc,
        routes,
        &request.method,
        &request.target,
        &request.body,
    ) {
        Ok((call, links)) => Ok(Question::Reads { call, links, least }),
        Err(refusal) => refused(refusal),
    }
}

/// What a GET asks for, on a path of a snapshot. `Err` means out of memory.
fn question_of_get(
    alloc: Global,
    routes: &Routes,
    request: &HttpRequest,
) -> Result<Question, AllocError>
    ensures question { IfOk result (IsAskedByGet (framed request.now)) }
    ensures well_made { IfOk result IsWellAsked }
{
    let (_, query) = cut(&request.target);
    let text = parameter_value(alloc, query, "least")?;
    match least_of(&text) {
        Some(least) => question_after(alloc, routes, request, least),
        None => Ok(Question::Refused(Unread::Least)),
    }
}

/// What a request asks for, by a table of the routes that is lent. `NoRoute` is returned if the path is not that of the rows or of one row
/// of VRFs or prefixes, then `Method` if the method is not GET, then `Least`, and then `Query` with the refusals of the listing's
/// parameters. The body is ignored. `Err` means out of memory.
pub fn read_question(
    alloc: Global,
    routes: &Routes,
    request: &HttpRequest,
) -> Result<Question, AllocError>
    ensures question { IfOk result (IsQuestion (framed request.now)) }
    ensures well_made { IfOk result IsWellAsked }
{
    let (path, _) = cut(&request.target);
    if !is_served(routes.route_of(path)) {
        return Ok(Question::Refused(Unread::NoRoute));
    }
    match Method::named(&request.method) {
        Some(Method::Get) => question_of_get(alloc, routes, request),
        _ => Ok(Question::Refused(Unread::Method)),
    }
}
