//! The answer to a request, before its frame.

ghost use Rattle.std.specs.Prelude.{◌≡◌, IfOk, true};
ghost use Rattle.http_session.specs.Replies.{answer_of};
ghost use Rattle.ipam_words.specs.Lines.{is_fixed};
ghost use Rattle.pool_rest.specs.Answers.{IsFramingAnswer, IsRefusedAnswer, allow_of, common_allow, pool_refusal_status, reply_answer, request_status, route_methods, status_of};
ghost use Rattle.pool_rest.specs.Answers as spec;

use crate::route::Route;
use crate::table::Routes;
use http::StatusCode;
use http_session::{Body, Fault, Reply as Answer};
use ipam_data::replies::{Part, Refusal};
use ipam_json::fixed_refusal_bytes;
use ipam_words::status;
use number_pools::{PoolRefusal, PoolReply};
use pool_json::{RequestRefusal, Shape, reply_bytes, request_refusal_bytes};
use rest_query::{cut, place_at};
use std::alloc::{AllocError, Global};

/// The media type of each body (RFC 8259 11).
const JSON: &[u8] = b"application/json";

/// The status of a refusal by the pools.
fn pool_refusal_code(refusal: PoolRefusal) -> StatusCode
    ensures { result ≡ pool_refusal_status refusal }
{
    match refusal {
        PoolRefusal::Absent(_) => StatusCode::NOT_FOUND,
        PoolRefusal::NameTaken(_) => StatusCode::BAD_REQUEST,
        PoolRefusal::Bounds => StatusCode::BAD_REQUEST,
        PoolRefusal::InUse(_) => StatusCode::CONFLICT,
        PoolRefusal::NoSpace(_) => StatusCode::CONFLICT,
        PoolRefusal::Outside(_) => StatusCode::BAD_REQUEST,
        PoolRefusal::Taken(_, _) => StatusCode::CONFLICT,
        PoolRefusal::Repeated(_) => StatusCode::CONFLICT,
        PoolRefusal::Limit(_, _) => StatusCode::INSUFFICIENT_STORAGE,
        PoolRefusal::Keeper => StatusCode::SERVICE_UNAVAILABLE,
        PoolRefusal::Memory => StatusCode::INTERNAL_SERVER_ERROR,
    }
}

/// The status of a reply.
fn reply_status(reply: &PoolReply) -> StatusCode
    ensures { result ≡ status_of reply.now }
{
    match reply {
        PoolReply::Made(_) => StatusCode::CREATED,
        PoolReply::Gone => StatusCode::NO_CONTENT,
        PoolReply::Claimed(_) => StatusCode::CREATED,
        PoolReply::ChangedRange(_) => StatusCode::OK,
        PoolReply::ChangedMember(_) => StatusCode::OK,
        PoolReply::OneRange(_) => StatusCode::OK,
        PoolReply::OneMember(_) => StatusCode::OK,
        PoolReply::Ranges(_) => StatusCode::OK,
        PoolReply::Members(_) => StatusCode::OK,
        PoolReply::Numbers(_) => StatusCode::OK,
        PoolReply::Page { .. } => StatusCode::OK,
        PoolReply::Refused(refusal) => pool_refusal_code(*refusal),
    }
}

/// The status of a refusal before the pools are asked.
fn request_refusal_code(refusal: &RequestRefusal) -> StatusCode
    ensures { result ≡ request_status refusal.now }
{
    match refusal {
        RequestRefusal::Common(refusal) => status(refusal),
        RequestRefusal::Start => StatusCode::BAD_REQUEST,
        RequestRefusal::End => StatusCode::BAD_REQUEST,
        RequestRefusal::Number(_) => StatusCode::BAD_REQUEST,
        RequestRefusal::Range(_) => StatusCode::BAD_REQUEST,
    }
}

/// The methods of a route, if there is one.
fn methods(route: Option<Route>) -> &'static [u8]
    ensures { result.now ≡ route_methods route }
{
    match route {
        Some(route) => route.methods().as_bytes(),
        None => b"",
    }
}

/// What the field `Allow` says with a refusal that the register has too.
fn allowed_by(route: Option<Route>, refusal: &Refusal) -> &'static [u8]
    ensures { result.now ≡ common_allow route refusal.now }
{
    match refusal {
        Refusal::Method => methods(route),
        _ => b"",
    }
}

/// What the field `Allow` says with this refusal: nothing but for a method that the route does not have.
fn allowed(route: Option<Route>, refusal: &RequestRefusal) -> &'static [u8]
    ensures { result.now ≡ allow_of route refusal.now }
{
    match refusal {
        RequestRefusal::Common(refusal) => allowed_by(route, refusal),
        _ => b"",
    }
}

/// The answer of a reply of the pools to a call of this shape, which is at this place. `Err` means out of memory.
pub fn answer_of_reply(
    alloc: Global,
    shape: Shape,
    reply: &PoolReply,
    place: u64,
) -> Result<Answer, AllocError>
    ensures { IfOk result (λ a. answer_of a ≡ reply_answer shape reply.now place) }
{
    let body = reply_bytes(alloc, shape, reply)?;
    Ok(Answer {
        status: reply_status(reply),
        allow: b"",
        field: Some(place_at(place)),
        media: JSON,
        body: Body::Written(body),
    })
}

/// The answer of a refusal that the bytes of a request decide, before the pools, by a table of the routes that is lent: it has no place.
/// `Err` means out of memory.
pub fn answer_of_refusal_by(
    alloc: Global,
    routes: &Routes,
    target: &[u8],
    refusal: &RequestRefusal,
) -> Result<Answer, AllocError>
    ensures { IfOk result (λ a. IsRefusedAnswer target.now refusal.now (answer_of a)) }
{
    let (path, _) = cut(target);
    let body = request_refusal_bytes(alloc, refusal)?;
    Ok(Answer {
        status: request_refusal_code(refusal),
        allow: allowed(routes.route_of(path), refusal),
        field: None,
        media: JSON,
        body: Body::Written(body),
    })
}

/// The refusal of bytes that are in the place of a request and are none.
fn refusal_of(fault: Fault) -> Refusal
    ensures refusal { result ≡ spec.refusal_of fault }
    ensures fixed { is_fixed result ≡ true }
{
    match fault {
        Fault::BadHead => Refusal::BadHead,
        Fault::LargeHead => Refusal::TooLarge(Part::Head),
        Fault::LargeBody => Refusal::TooLarge(Part::Body),
        Fault::Coding => Refusal::Coding,
    }
}

/// The answer to bytes that are in the place of a request and are none: it has no place. It takes no memory.
pub fn answer_of_fault(fault: Fault) -> Answer
    ensures { IsFramingAnswer fault (answer_of result) }
{
    let refusal = refusal_of(fault);
    Answer {
        status: status(&refusal),
        allow: b"",
        field: None,
        media: JSON,
        body: Body::Short(fixed_refusal_bytes(&refusal)),
    }
}
