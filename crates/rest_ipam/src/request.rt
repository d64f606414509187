//! The next request of a connection, before its route.

ghost use Rattle.std.specs.Prelude.{◌≡◌, ◌≤◌, ◌⊎◌, ℕ, List};
ghost use Rattle.ipam_edge.specs.Faults.{Rose};
ghost use Rattle.http_session.specs.Requests.{IsUnfinished};
ghost use Rattle.http_session.specs.Steps.{Grown, IsReadUntil, IsReadWhile};
ghost use Rattle.rest_ipam.specs.Asked.{IsAsked, IsAskedLast};

use crate::bytes::Bytes;
use http_session::Inbox;
use ipam_data::replies::Refusal;
use ipam_edge::Source;
use rest_routes::refusal_of;
use std::alloc::Global;

/// A request before its route: its method and its target as they are, its body, and whether no request follows it.
#[derive(Debug, Drop)]
pub struct HttpRequest {
    pub method: Bytes,
    pub target: Bytes,
    pub body: Bytes,
    pub close: bool,
}

/// What comes next.
#[derive(Drop)]
pub enum Asked {
    Request(HttpRequest),
    /// The bytes are no request, and nothing after them is read: one of `BadHead`, `TooLarge` and `Coding`.
    Bad(Refusal),
    /// The input has ended between two requests.
    End,
    SourceFault,
    Memory,
}

/// The request, with its parts as lists. It takes no memory.
fn request_of(request: http_session::HttpRequest) -> HttpRequest
    ensures { result ≡ record { method = request.method.items; target = request.target.items; body = request.body.items; close = request.close } }
{
    let http_session::HttpRequest {
        method,
        target,
        body,
        close,
    } = request;
    HttpRequest {
        method: Bytes::of(method),
        target: Bytes::of(target),
        body: Bytes::of(body),
        close,
    }
}

/// The next item of the bytes that the inbox has and the source has left: a request, a refusal of the bytes that are in its place, or
/// the end of the input between two requests. `SourceFault` is returned if a read failed while more bytes were needed, and no other answer
/// if the source's count rose; `Memory` if memory ran out. After both no byte is lost, and the call may be made again.
pub fn next_request<So: Source>(alloc: Global, source: &mut So, inbox: &mut Inbox) -> Asked
    ensures item { (all : List ℕ) × Grown (So.left source.old) (So.left source.new) inbox.old.bytes all × IsAsked inbox.old.number all (So.left source.new) result inbox.new × IsReadWhile IsUnfinished inbox.old.bytes all
        × IsReadUntil So.reads IsUnfinished source.old source.new inbox.old.bytes all (λ last. IsAskedLast result last) }
    ensures later { So.faults source.old ≤ So.faults source.new }
    ensures cause { result ≡ Asked.SourceFault → Rose (So.faults source.old) (So.faults source.new) }
    ensures kept { (result ≡ Asked.SourceFault) ⊎ (So.faults source.new ≡ So.faults source.old) }
{
    match http_session::next_request(alloc, source, inbox) {
        http_session::Asked::Request(request) => Asked::Request(request_of(request)),
        http_session::Asked::Bad(fault) => Asked::Bad(refusal_of(fault)),
        http_session::Asked::End => Asked::End,
        http_session::Asked::SourceFault => Asked::SourceFault,
        http_session::Asked::Memory => Asked::Memory,
    }
}
