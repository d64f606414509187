//! An answer, written of its parts.

ghost use Rattle.std.specs.Prelude.{◌≡◌, false, option_map};
ghost use Rattle.ipam_edge.specs.Writing.{ByWrites};
ghost use Rattle.http_session.specs.Answers.{HasPutCause, IsPutEnd, answer_text};
ghost use Rattle.rest_query.specs.Place as spec;
ghost use Rattle.rest_routes.specs.Answers.{json_type};
ghost use Rattle.rest_ipam.specs.Statuses.{IsStatus};

use http::StatusCode;
use http_session::{PutEnd, put_parts};
use ipam_edge::Sink;
use rest_answers::place_field;

/// Writes an answer: its status, `Content-Type` and `Content-Length` if there is a body, `Allow` if there are methods, its place
/// if it has one, `Connection: close` if the connection closes, and the body. After `SinkFault`, which is returned only if the sink's
/// count rose, a shorter prefix of it was written. It takes no memory.
pub fn put_answer<Si: Sink>(
    sink: &mut Si,
    status: u16,
    allow: &[u8],
    place: Option<u64>,
    close: bool,
    body: &[u8],
) -> PutEnd
    requires { IsStatus status }
    ensures told { IsPutEnd (Si.written sink.old) (Si.written sink.new) result (answer_text status allow.now (option_map spec.place_field place) json_type close false body.now) }
    ensures cause { HasPutCause (Si.faults sink.old) (Si.faults sink.new) result }
    ensures writes { ByWrites Si.writes sink.old sink.new }
{
    let Ok(status) = StatusCode::from_u16(status) else {
        unreachable!()
    };
    put_parts(
        sink,
        status,
        allow,
        &place_field(place),
        b"application/json",
        body,
        close,
        false,
    )
}
