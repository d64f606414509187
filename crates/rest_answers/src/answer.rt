//! The answer of a reply that is at a place.

ghost use Rattle.std.specs.Prelude.{◌≡◌, ◌≢◌, IfOk, IsOk, MatchBool, option_map};
ghost use Rattle.http_session.specs.Replies.{answer_of, field_of};
ghost use Rattle.rest_routes.specs.Answers.{finished_links, reply_answer};
ghost use Rattle.rest_query.specs.Place as spec;

use http_session::{NumberField, Reply as Answer};
use ipam_data::replies::{Refusal, Reply};
use ipam_json::Links;
use rest_query::place_at;
use rest_routes::{answer_of_reply, answer_of_want, finish_links};
use std::alloc::{AllocError, Global};

/// The field with a place, if there is one.
pub fn place_field(place: Option<u64>) -> Option<NumberField>
    ensures { option_map field_of result ≡ option_map spec.place_field place }
{
    match place {
        Some(number) => Some(place_at(number)),
        None => None,
    }
}

/// Whether a refusal means out of memory.
pub fn is_want(refusal: &Refusal) -> bool
    ensures { MatchBool result (refusal.now ≡ Refusal.Memory) (refusal.now ≢ Refusal.Memory) }
{
    matches!(refusal, Refusal::Memory)
}

/// Whether a reply means out of memory.
fn is_memory(reply: &Reply) -> bool
    ensures { MatchBool result (reply.now ≡ Reply.Refused Refusal.Memory) (reply.now ≢ Reply.Refused Refusal.Memory) }
{
    match reply {
        Reply::Refused(refusal) => is_want(refusal),
        _ => false,
    }
}

/// The answer of a reply of the register, which is at this place, with these links. `Err` means out of memory, which
/// the answer of a reply that itself reports out of memory does not need.
pub fn answer_at(
    alloc: Global,
    reply: &Reply,
    links: &Links,
    place: u64,
) -> Result<Answer, AllocError>
    ensures answer { IfOk result (λ a. answer_of a ≡ reply_answer reply.now links.now place) }
    ensures want { reply.now ≡ Reply.Refused Refusal.Memory → IsOk result }
{
    if is_memory(reply) {
        return Ok(answer_of_want(place));
    }
    answer_of_reply(alloc, reply, links, place)
}

/// The answer of a reply of the register, which is at this place, and whose page ends with so many rows. `Err` means out of memory,
/// as in `answer_at`.
pub fn answer_to(
    alloc: Global,
    reply: &Reply,
    end: u64,
    links: Links,
    place: u64,
) -> Result<Answer, AllocError>
    ensures answer { IfOk result (λ a. answer_of a ≡ reply_answer reply.now (finished_links reply.now end links) place) }
    ensures want { reply.now ≡ Reply.Refused Refusal.Memory → IsOk result }
{
    let links = finish_links(reply, end, links);
    let answer = answer_at(alloc, reply, &links, place);
    drop(links);
    answer
}
