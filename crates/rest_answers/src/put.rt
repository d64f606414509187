//! A reply, written as an answer.

ghost use Rattle.std.specs.Prelude.{◌≡◌, ◌≢◌, IfOk, IsOk, MatchBool, None, false};
ghost use Rattle.ipam_edge.specs.Writing.{ByWrites};
ghost use Rattle.http_session.specs.Replies.{answer_of};
ghost use Rattle.http_session.specs.Talk.{framed_text};
ghost use Rattle.rest_answers.specs.Written.{HasPutCause, IsPutAnswer, IsPutReply, IsReplyAnswer, IsUnplacedAnswer, is_method_refusal, refuses_method, unplaced};

use crate::answer::answer_at;
use http_session::{PutEnd, Reply as Answer, put_answer};
use ipam_data::replies::{Refusal, Reply};
use ipam_edge::Sink;
use ipam_json::Links;
use rest_routes::answer_of_refusal;
use std::alloc::{AllocError, Global};

/// How the writing of a reply ended.
#[derive(Clone, Copy, Debug, PartialEq, Eq)]
pub enum PutReply {
    Whole,
    SinkFault,
    /// Nothing was written.
    Memory,
}

/// Whether a refusal is that of a method.
fn is_method(refusal: &Refusal) -> bool
    ensures told { result ≡ is_method_refusal refusal.now }
    ensures is { MatchBool result (refusal.now ≡ Refusal.Method) (refusal.now ≢ Refusal.Method) }
{
    matches!(refusal, Refusal::Method)
}

/// Whether a reply refuses the method.
fn is_method_refused(reply: &Reply) -> bool
    ensures told { result ≡ refuses_method reply.now }
    ensures is { MatchBool result (reply.now ≡ Reply.Refused Refusal.Method) (reply.now ≢ Reply.Refused Refusal.Method) }
{
    match reply {
        Reply::Refused(refusal) => is_method(refusal),
        _ => false,
    }
}

/// The answer without its place.
fn without_place(answer: Answer) -> Answer
    ensures { answer_of result ≡ unplaced (answer_of answer) }
{
    let Answer {
        status,
        allow,
        field: _,
        media,
        body,
    } = answer;
    Answer {
        status,
        allow,
        field: None,
        media,
        body,
    }
}

/// The answer of a reply that has no place, to a request of this target. `Err` means out of memory.
fn unplaced_answer(
    alloc: Global,
    target: &[u8],
    reply: &Reply,
    links: &Links,
) -> Result<Answer, AllocError>
    ensures answer { IfOk result (λ a. IsUnplacedAnswer target.now reply.now links.now (answer_of a)) }
    ensures want { reply.now ≡ Reply.Refused Refusal.Memory → IsOk result }
{
    if is_method_refused(reply) {
        return answer_of_refusal(alloc, target, &Refusal::Method);
    }
    match answer_at(alloc, reply, links, 0) {
        Ok(answer) => Ok(without_place(answer)),
        Err(error) => Err(error),
    }
}

/// The answer of a reply to a request of this target. `Err` means out of memory.
fn reply_answer(
    alloc: Global,
    target: &[u8],
    reply: &Reply,
    links: &Links,
    place: Option<u64>,
) -> Result<Answer, AllocError>
    ensures answer { IfOk result (λ a. IsReplyAnswer target.now reply.now links.now place (answer_of a)) }
    ensures want { reply.now ≡ Reply.Refused Refusal.Memory → IsOk result }
{
    match place {
        Some(place) => answer_at(alloc, reply, links, place),
        None => unplaced_answer(alloc, target, reply, links),
    }
}

/// Writes an answer.
fn put_whole<Si: Sink>(sink: &mut Si, answer: &Answer, close: bool) -> PutReply
    ensures told { IsPutAnswer (Si.written sink.old) (Si.written sink.new) result (framed_text (answer_of answer.now) close false) }
    ensures cause { HasPutCause (Si.faults sink.old) (Si.faults sink.new) result }
    ensures writes { ByWrites Si.writes sink.old sink.new }
    ensures want { result ≢ PutReply.Memory }
{
    match put_answer(sink, answer, close, false) {
        PutEnd::Whole => PutReply::Whole,
        PutEnd::SinkFault => PutReply::SinkFault,
    }
}

/// Writes the answer of a reply to a request of this target: with a place, that of a reply of the register; without one, that of a
/// refusal which the bytes of the request decide. The links are written as they are given. After `SinkFault`, which is returned only if
/// the sink's count rose, a shorter prefix of the answer was written; `Memory` is returned if memory ran out, with nothing written, and never
/// for a reply that itself reports out of memory.
pub fn put_reply<Si: Sink>(
    alloc: Global,
    sink: &mut Si,
    target: &[u8],
    reply: &Reply,
    links: &Links,
    place: Option<u64>,
    close: bool,
) -> PutReply
    ensures told { IsPutReply (Si.written sink.old) (Si.written sink.new) result target.now reply.now links.now place close }
    ensures cause { HasPutCause (Si.faults sink.old) (Si.faults sink.new) result }
    ensures writes { ByWrites Si.writes sink.old sink.new }
    ensures want { reply.now ≡ Reply.Refused Refusal.Memory → result ≢ PutReply.Memory }
{
    match reply_answer(alloc, target, reply, links, place) {
        Ok(answer) => put_whole(sink, &answer, close),
        Err(_) => PutReply::Memory,
    }
}
