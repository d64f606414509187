//! The text of an answer, written to a sink. It takes no memory.
ghost use Rattle.std.specs.Prelude.{◌≡◌, Bool, [], if◌then◌else◌, length, codes, ℕ, List, Option, option_map, ◌≤◌, ◌++◌};
ghost use Rattle.ipam_edge.specs.Writing.{ByWrites};
ghost use Rattle.http_session.specs.Answers.{HasPutCause, IsPutEnd, answer_text, phrase_of, sent_body};
ghost use Rattle.http_session.specs.Replies.{answer_of, field_of};
ghost use Rattle.http_session.specs.Talk.{framed_text};

use crate::answer_writer::AnswerWriter;
use crate::{NumberField, Reply};
use http::StatusCode;
use ipam_edge::Sink;
use itoa::Buffer;

/// How the writing of an answer ended.
#[derive(Clone, Copy, Debug, PartialEq, Eq)]
pub enum PutEnd {
    Whole,
    SinkFault,
}

/// The phrase of a status, which may be empty.
#[tactic(auto, unfolding(crate::specs::Answers::phrase_of))]
fn phrase(status: StatusCode) -> &'static [u8]
    ensures { result.now ≡ phrase_of status }
{
    match status.canonical_reason() {
        Some(phrase) => phrase.as_bytes(),
        None => b"",
    }
}

/// What is sent of a body: nothing in a bare answer.
fn sent_body(bare: bool, body: &[u8]) -> &[u8]
    ensures { result.now ≡ sent_body bare body.now }
{
    if bare { b"" } else { body }
}

/// Writes an answer of these parts: the status line, then `Content-Type` and `Content-Length` if there is a
/// body, `Allow` if there are methods, the field that the request handler names if there is one and
/// `Connection: close` if the connection closes, and then the body. A bare answer, to a HEAD
/// request, has the same head and no body after it. `SinkFault` is returned if a write failed, and
/// then a prefix of the answer was written. It takes no memory.
pub fn put_parts<S: Sink>(
    sink: &mut S,
    status: StatusCode,
    allow: &[u8],
    field: &Option<NumberField>,
    media: &[u8],
    body: &[u8],
    close: bool,
    bare: bool,
) -> PutEnd
    ensures told { IsPutEnd (S.written sink.old) (S.written sink.new) result (answer_text status allow.now (option_map field_of field.now) media.now close bare body.now) }
    ensures cause { HasPutCause (S.faults sink.old) (S.faults sink.new) result }
    ensures writes { ByWrites S.writes sink.old sink.new }
{
    let mut room = Buffer::new();
    let mut answer_writer = AnswerWriter::new();
    answer_writer.put(sink, b"HTTP/1.1 ");
    answer_writer.put(sink, status.as_str().as_bytes());
    answer_writer.put_line(sink, true, b" ", phrase(status));
    let there = !body.is_empty();
    let length = room.format(body.len()).as_bytes();
    answer_writer.put_body_fields(sink, there, media, length);
    answer_writer.put_line(sink, !allow.is_empty(), b"Allow: ", allow);
    answer_writer.put_field(sink, field);
    answer_writer.put_line(sink, close, b"Connection: ", b"close");
    answer_writer.put(sink, b"\r\n");
    answer_writer.put(sink, sent_body(bare, body));
    answer_writer.finish(sink)
}

/// Writes the answer of a request handler, by `put_parts`.
pub fn put_answer<S: Sink>(sink: &mut S, reply: &Reply, close: bool, bare: bool) -> PutEnd
    ensures told { IsPutEnd (S.written sink.old) (S.written sink.new) result (framed_text (answer_of reply.now) close bare) }
    ensures cause { HasPutCause (S.faults sink.old) (S.faults sink.new) result }
    ensures writes { ByWrites S.writes sink.old sink.new }
{
    put_parts(
        sink,
        reply.status,
        reply.allow,
        &reply.field,
        reply.media,
        reply.body.bytes(),
        close,
        bare,
    )
}
