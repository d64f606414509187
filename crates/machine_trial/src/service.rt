//! What is between a tally and the requests of its connections.

ghost use Rattle.std.specs.Prelude.{◌≡◌, ◌≤◌, ◌++◌, ℕ, Option, IfOk, codes, decimal, length};
ghost use Rattle.arrayvec.specs.ArrayVec.{array_vec_len};
ghost use Rattle.http_session.specs.Replies.{answer_of};
ghost use Rattle.machine_trial.specs.Tallies.{asked_of, asked_by, answer_with, misread_answer, reply_answer};

use arrayvec::ArrayVec;
use http::StatusCode;
use http_session::{Body, Fault, HttpRequest, NumberField, Reply as Answer};
use itoa::Buffer;
use lock_trial::{Call, Reply, Tally};
use machine_session::{Service, Wanted};
use std::alloc::{AllocError, Global};

/// The call that a method and a body ask for, if any.
fn call_of(method: &[u8], body: &[u8]) -> Option<Call>
    ensures { asked_of result ≡ asked_by method.now body.now }
{
    if method == b"GET".as_slice() {
        return Some(Call::Read);
    }
    if method == b"POST".as_slice() {
        return match body {
            [more] => Some(Call::Add(u64::from(*more))),
            _ => None,
        };
    }
    None
}

/// The field with the place of an answer.
fn place_at(place: u64) -> NumberField
    ensures name { result.name.now ≡ codes "Place" }
    ensures number { result.number ≡ place }
{
    NumberField {
        name: b"Place",
        number: place,
    }
}

/// An answer with a field, if there is one, and a short body.
pub(crate) fn answer_with(status: StatusCode, field: Option<NumberField>, text: &[u8]) -> Answer
    requires { length text.now ≤ 128 }
    ensures { answer_of result ≡ answer_with status field text.now }
{
    let mut body = ArrayVec::<u8, 128>::new();
    match body.try_extend_from_slice(text) {
        Ok(()) => {}
        Err(_) => unreachable!(),
    }
    Answer {
        status,
        allow: b"",
        field,
        media: b"text/plain",
        body: Body::Short(body),
    }
}

/// The answer of a reply, which has a place.
pub(crate) fn told(reply: Reply, place: u64) -> Answer
    ensures { answer_of result ≡ reply_answer reply place }
{
    let field = Some(place_at(place));
    let mut room = Buffer::new();
    match reply {
        Reply::Added(sum) => answer_with(StatusCode::OK, field, room.format(sum).as_bytes()),
        Reply::Value(sum) => answer_with(StatusCode::OK, field, room.format(sum).as_bytes()),
        Reply::Fault => answer_with(StatusCode::SERVICE_UNAVAILABLE, field, b"failed"),
        Reply::NoMemory => answer_with(StatusCode::INTERNAL_SERVER_ERROR, field, b"no memory"),
    }
}

/// The service of a tally.
pub struct TallyService;

impl Service<Tally> for TallyService {
    ghost use Rattle.lock_trial.specs.declared.calls.Call.{Call as CallSeen};
    ghost use Rattle.machine_trial.specs.Tallies.{asked_by, refused_answer, misread_answer, reply_answer};

    type Table = ();

    type Along = ();

    ghost Shown = { Unit {0} };

    ghost Refused = { Unit {0} };

    ghost asks = { λ request asked. asked ≡ asked_by request.method request.body };

    ghost tells = { λ call reply shown place. reply_answer reply place };

    ghost refuses = { λ request why answer. answer ≡ refused_answer };

    ghost misread = { λ fault answer. answer ≡ misread_answer };

    ghost shows = { λ along call shown. Unit {0} };

    fn table(alloc: Global) -> Result<(), AllocError> {
        let _ = alloc;
        Ok(())
    }

    fn read(
        alloc: Global,
        table: &(),
        request: &HttpRequest,
    ) -> Result<Wanted<Call, ()>, AllocError> {
        let _ = alloc;
        let () = *table;
        match call_of(&request.method, &request.body) {
            Some(call) => Ok(Wanted::Call(call, ())),
            None => Ok(Wanted::Refused(answer_with(StatusCode::BAD_REQUEST, None, b"no call"))),
        }
    }

    fn write(alloc: Global, reply: Reply, along: (), place: u64) -> Result<Answer, AllocError> {
        let _ = alloc;
        let () = along;
        Ok(told(reply, place))
    }

    fn refuse(fault: Fault) -> Answer {
        let _ = fault;
        answer_with(StatusCode::BAD_REQUEST, None, b"bad request")
    }

    fn close(table: ()) {
        let () = table;
    }
}
