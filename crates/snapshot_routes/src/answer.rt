//! The answers that a snapshot alone gives.

ghost use Rattle.std.specs.Prelude.{◌≡◌, IfOk, true};
ghost use Rattle.serde_json.specs.Written.{compact_text};
ghost use Rattle.http_session.specs.Replies.{answer_of, body_bytes};
ghost use Rattle.ipam_data.specs.Answers.{refusal_status_of};
ghost use Rattle.ipam_json.specs.Replies.{refusal_text};
ghost use Rattle.ipam_json.specs.Written.{Puts, pieces_of};
ghost use Rattle.ipam_words.specs.Lines.{is_fixed};
ghost use Rattle.snapshot_routes.specs.Answers.{bare_answer, words_data};
ghost use Rattle.snapshot_routes.specs.Answers as spec;

use crate::question::Unread;
use http::StatusCode;
use http_session::{Body, Reply as Answer};
use ipam_data::replies::Refusal;
use ipam_json::{fixed_refusal_bytes, refusal_bytes};
use ipam_words::status;
use json::Writer;
use rest_answers::place_field;
use std::alloc::{AllocError, Global};

/// The media type of each body (RFC 8259 11).
const JSON: &[u8] = b"application/json";

/// Writes a code and words for it.
fn put_words(writer: &mut Writer, code: &str, detail: &str) -> Result<(), AllocError>
    ensures { Puts result writer.old writer.new (pieces_of (words_data code.now detail.now)) }
{
    writer.begin_object()?;
    writer.key("code")?;
    writer.string(code)?;
    writer.key("detail")?;
    writer.string(detail)?;
    writer.end_object()
}

/// The JSON text of a code and words for it. `Err` means out of memory.
fn words_bytes(alloc: Global, code: &str, detail: &str) -> Result<Vec<u8>, AllocError>
    ensures { IfOk result (λ v. v.items ≡ compact_text (words_data code.now detail.now)) }
{
    let mut writer = Writer::new(Vec::new(alloc));
    put_words(&mut writer, code, detail)?;
    Ok(writer.into_inner())
}

/// An answer without a place.
fn bare(status: StatusCode, allow: &'static [u8], body: Body) -> Answer
    ensures { answer_of result ≡ bare_answer status allow.now (body_bytes body) }
{
    Answer {
        status,
        allow,
        field: None,
        media: JSON,
        body,
    }
}

/// The answer to a request with a refused query. `Err` means out of memory.
fn query_answer(alloc: Global, refusal: &Refusal) -> Result<Answer, AllocError>
    ensures { IfOk result (λ a. answer_of a ≡ spec.query_answer refusal.now) }
{
    let body = refusal_bytes(alloc, refusal)?;
    Ok(bare(status(refusal), b"", Body::Written(body)))
}

/// The answer to a request with a malformed `least`. `Err` means out of memory.
fn least_answer(alloc: Global) -> Result<Answer, AllocError>
    ensures { IfOk result (λ a. answer_of a ≡ spec.least_answer) }
{
    let body = words_bytes(alloc, "field", "least is missing or malformed")?;
    Ok(bare(StatusCode::BAD_REQUEST, b"", Body::Written(body)))
}

/// The answer to a request with a refusal whose words are fixed, and with these methods as those that the path has. It takes no memory.
fn fixed_answer(refusal: &Refusal, allow: &'static [u8]) -> Answer
    requires { is_fixed refusal.now ≡ true }
    ensures { answer_of result ≡ bare_answer (refusal_status_of refusal.now) allow.now (refusal_text refusal.now) }
{
    let body = fixed_refusal_bytes(refusal);
    bare(status(refusal), allow, Body::Short(body))
}

/// The answer to a request for which nothing is read. `Err` means out of memory.
pub fn unread_answer(alloc: Global, why: &Unread) -> Result<Answer, AllocError>
    ensures { IfOk result (λ a. answer_of a ≡ spec.unread_answer why.now) }
{
    match why {
        Unread::NoRoute => Ok(fixed_answer(&Refusal::NoRoute, b"")),
        Unread::Method => Ok(fixed_answer(&Refusal::Method, b"GET")),
        Unread::Least => least_answer(alloc),
        Unread::Query(refusal) => query_answer(alloc, refusal),
    }
}

/// The answer if fewer changes are published than are asked for: so many. `Err` means out of memory.
pub fn behind_answer(alloc: Global, published: u64) -> Result<Answer, AllocError>
    ensures { IfOk result (λ a. answer_of a ≡ spec.behind_answer published) }
{
    let detail = format!(in alloc; "published up to {published}")?;
    let body = words_bytes(alloc, "behind", detail.as_str())?;
    Ok(Answer {
        status: StatusCode::SERVICE_UNAVAILABLE,
        allow: b"",
        field: place_field(Some(published)),
        media: JSON,
        body: Body::Written(body),
    })
}
