//! The answer to a request, before its frame.

ghost use Rattle.std.specs.Prelude.{◌≡◌, IfOk, true};
ghost use Rattle.ipam_data.specs.Answers.{status_of};
ghost use Rattle.http_session.specs.Replies.{answer_of};
ghost use Rattle.ipam_words.specs.Lines.{is_fixed};
ghost use Rattle.rest_routes.specs.Answers.{IsFramingAnswer, IsRefusedAnswer, allow_of, end_of, finished_links, json_type, reply_answer, route_methods};
ghost use Rattle.rest_routes.specs.Answers as spec;

use crate::route::Route;
use crate::table::Routes;
use http::StatusCode;
use http_session::{Body, Fault, Reply as Answer};
use ipam_data::calls::Call;
use ipam_data::replies::{Part, Refusal, Reply};
use ipam_json::{Links, fixed_refusal_bytes, refusal_bytes, reply_bytes};
use ipam_words::status;
use rest_query::{cut, place_at};
use std::alloc::{AllocError, Global};

/// The media type of each body (RFC 8259 11).
const JSON: &[u8] = b"application/json";

/// The status of a reply.
fn reply_status(reply: &Reply) -> StatusCode
    ensures { result ≡ status_of reply.now }
{
    match reply {
        Reply::Made(_) => StatusCode::CREATED,
        Reply::MadeMany(_) => StatusCode::CREATED,
        Reply::Changed(_) => StatusCode::OK,
        Reply::Gone => StatusCode::NO_CONTENT,
        Reply::Imported { .. } => StatusCode::OK,
        Reply::One(_) => StatusCode::OK,
        Reply::Page { .. } => StatusCode::OK,
        Reply::Blocks { .. } => StatusCode::OK,
        Reply::Addrs { .. } => StatusCode::OK,
        Reply::Percent(_) => StatusCode::OK,
        Reply::Rows(_) => StatusCode::OK,
        Reply::Lines(_) => StatusCode::OK,
        Reply::Refused(refusal) => status(refusal),
    }
}

/// The methods of a route, if there is one.
fn methods(route: Option<Route>) -> &'static [u8]
    ensures { result.now ≡ route_methods route }
{
    match route {
        Some(route) => route.methods().as_bytes(),
        None => b"",
    }
}

/// What the field `Allow` says with this refusal: nothing but for a method that the route does not have.
fn allowed(route: Option<Route>, refusal: &Refusal) -> &'static [u8]
    ensures { result.now ≡ allow_of route refusal.now }
{
    match refusal {
        Refusal::Method => methods(route),
        _ => b"",
    }
}

/// The answer of a reply of the register, which is at this place. `Err` means out of memory.
pub fn answer_of_reply(
    alloc: Global,
    reply: &Reply,
    links: &Links,
    place: u64,
) -> Result<Answer, AllocError>
    ensures { IfOk result (λ a. answer_of a ≡ reply_answer reply.now links.now place) }
{
    let body = reply_bytes(alloc, reply, links)?;
    Ok(Answer {
        status: reply_status(reply),
        allow: b"",
        field: Some(place_at(place)),
        media: JSON,
        body: Body::Written(body),
    })
}

/// The answer of a refusal that the bytes of a request decide, before the register, by a table of the routes that is lent: it has
/// no place. `Err` means out of memory.
pub fn answer_of_refusal_by(
    alloc: Global,
    routes: &Routes,
    target: &[u8],
    refusal: &Refusal,
) -> Result<Answer, AllocError>
    ensures { IfOk result (λ a. IsRefusedAnswer target.now refusal.now (answer_of a)) }
{
    let (path, _) = cut(target);
    let body = refusal_bytes(alloc, refusal)?;
    Ok(Answer {
        status: status(refusal),
        allow: allowed(routes.route_of(path), refusal),
        field: None,
        media: JSON,
        body: Body::Written(body),
    })
}

/// The same of one refusal alone, for which the table is built.
pub fn answer_of_refusal(
    alloc: Global,
    target: &[u8],
    refusal: &Refusal,
) -> Result<Answer, AllocError>
    ensures { IfOk result (λ a. IsRefusedAnswer target.now refusal.now (answer_of a)) }
{
    let routes = Routes::new(alloc)?;
    answer_of_refusal_by(alloc, &routes, target, refusal)
}

/// The refusal of bytes that are in the place of a request and are none.
pub fn refusal_of(fault: Fault) -> Refusal
    ensures refusal { result ≡ spec.refusal_of fault }
    ensures fixed { is_fixed result ≡ true }
{
    match fault {
        Fault::BadHead => Refusal::BadHead,
        Fault::LargeHead => Refusal::TooLarge(Part::Head),
        Fault::LargeBody => Refusal::TooLarge(Part::Body),
        Fault::Coding => Refusal::Coding,
    }
}

/// The answer to bytes that are in the place of a request and are none: it has no place. It takes no memory.
pub fn answer_of_fault(fault: Fault) -> Answer
    ensures { IsFramingAnswer fault (answer_of result) }
{
    let refusal = refusal_of(fault);
    Answer {
        status: status(&refusal),
        allow: b"",
        field: None,
        media: JSON,
        body: Body::Short(fixed_refusal_bytes(&refusal)),
    }
}

/// The answer if memory runs out in the register, which takes none itself.
pub fn answer_of_want(place: u64) -> Answer
    ensures { (links : Links) → answer_of result ≡ reply_answer (Reply.Refused Refusal.Memory) links place }
{
    Answer {
        status: status(&Refusal::Memory),
        allow: b"",
        field: Some(place_at(place)),
        media: JSON,
        body: Body::Short(fixed_refusal_bytes(&Refusal::Memory)),
    }
}

/// The number of rows up to the end of a page; 0 for a call that asks for none.
pub fn page_end(call: &Call) -> u64
    ensures { result ≡ end_of call.now }
{
    match call {
        Call::List { limit, offset, .. } => u64::from(*offset) + u64::from(*limit),
        Call::Get { .. } => 0,
        Call::Create { .. } => 0,
        Call::Change { .. } => 0,
        Call::Delete { .. } => 0,
        Call::Blocks { .. } => 0,
        Call::PrefixAddrs { .. } => 0,
        Call::RangeAddrs { .. } => 0,
        Call::ClaimBlocks { .. } => 0,
        Call::ClaimPrefixAddrs { .. } => 0,
        Call::ClaimRangeAddrs { .. } => 0,
        Call::Utilization { .. } => 0,
        Call::Import { .. } => 0,
        Call::Export { .. } => 0,
        Call::Survey => 0,
    }
}

/// The links of a page that has so many rows up to its end: if these are all, no page is after it. It takes no memory.
pub fn finish_links(reply: &Reply, end: u64, links: Links) -> Links
    ensures { result ≡ finished_links reply.now end links }
{
    match reply {
        Reply::Page { count, .. } if u64::from(*count) <= end => Links {
            next: None,
            previous: links.previous,
        },
        _ => links,
    }
}
