//! Tables of inputs and what is written for each, at pieces of 1, 7 and 4,096 bytes.
ghost use Rattle.std.specs.Prelude.{ℕ, ◌<◌, true};

use arrayvec::ArrayVec;
use http::StatusCode;
use http_session::{Body, Desk, Fault, HttpRequest, NumberField, Reply, SessionEnd, serve};
use ipam_edge::{BytesSink, BytesSource};
use std::alloc::{AllocError, Global};
use std::process::Abort;
use std::test::Fail;

const BAD_HEAD: &str =
    "HTTP/1.1 400 Bad Request\r\nContent-Type: text/plain\r\nContent-Length: 8\r\nConnection: close\r\n\r\nbad head";

const LARGE_HEAD: &str =
    "HTTP/1.1 413 Payload Too Large\r\nContent-Type: text/plain\r\nContent-Length: 10\r\nConnection: close\r\n\r\nlarge head";

const LARGE_BODY: &str =
    "HTTP/1.1 413 Payload Too Large\r\nContent-Type: text/plain\r\nContent-Length: 10\r\nConnection: close\r\n\r\nlarge body";

const CODING: &str =
    "HTTP/1.1 501 Not Implemented\r\nContent-Type: text/plain\r\nContent-Length: 6\r\nConnection: close\r\n\r\ncoding";

/// Answers GET with the target, POST with the body, DELETE with none, and no other method. The seat
/// counts the answers.
struct Echo;

impl Desk for Echo {
    type Seat = u64;

    ghost View = { ℕ };

    ghost view = { λ s. s };

    ghost may = { record { answers = λ s r a t. Unit {0}; refuses = λ fault a. Unit {0} } };

    ghost whole = { λ s. true };

    fn answer(
        &self,
        alloc: Global,
        seat: u64,
        request: &HttpRequest,
    ) -> (u64, Result<Reply, AllocError>) {
        if request.target.as_slice() == b"/memory".as_slice() {
            return (seat, Err(AllocError));
        }
        let (status, written) = match request.method.as_slice() {
            b"GET" => (StatusCode::OK, request.target.as_slice()),
            b"POST" => (StatusCode::CREATED, request.body.as_slice()),
            b"DELETE" => (StatusCode::NO_CONTENT, b"".as_slice()),
            _ => return (seat, Ok(not_allowed())),
        };
        match Vec::from_slice(alloc, written) {
            Ok(bytes) => (
                seat.saturating_add(1),
                Ok(Reply {
                    status,
                    allow: b"",
                    field: Some(NumberField {
                        name: b"Echo-Count",
                        number: seat,
                    }),
                    media: b"text/plain",
                    body: Body::Written(bytes),
                }),
            ),
            Err(error) => (seat, Err(error)),
        }
    }

    fn refuse(&self, fault: Fault) -> Reply {
        match fault {
            Fault::BadHead => short(StatusCode::BAD_REQUEST, b"", b"bad head"),
            Fault::LargeHead => short(StatusCode::PAYLOAD_TOO_LARGE, b"", b"large head"),
            Fault::LargeBody => short(StatusCode::PAYLOAD_TOO_LARGE, b"", b"large body"),
            Fault::Coding => short(StatusCode::NOT_IMPLEMENTED, b"", b"coding"),
        }
    }
}

/// An answer without a field of the desk's own.
fn short(status: StatusCode, allow: &'static [u8], text: &[u8]) -> Reply {
    let mut bytes = ArrayVec::new();
    let _whole = bytes.try_extend_from_slice(text);
    Reply {
        status,
        allow,
        field: None,
        media: b"text/plain",
        body: Body::Short(bytes),
    }
}

fn not_allowed() -> Reply {
    short(StatusCode::METHOD_NOT_ALLOWED, b"GET, POST", b"{}")
}

/// What a session over the input writes, how it ends and how many bytes are not read.
fn served(
    alloc: Global,
    input: &[u8],
    piece: usize,
) -> Result<(Vec<u8>, SessionEnd, usize), AllocError>
    requires { 0 < piece }
{
    let bytes = Vec::from_slice(alloc, input)?;
    let mut source = BytesSource::new(bytes, Vec::new(alloc), piece);
    let mut sink = BytesSink::new(alloc, Vec::new(alloc), piece, 200000)?;
    let (_, end) = serve(alloc, &Echo, 0, &mut source, &mut sink);
    let left = source.left().len();
    Ok((sink.into_bytes(), end, left))
}

/// A session over the input writes the two texts and closes, however the bytes are cut.
fn expect<R: Abort + AllocGlobal>(
    rt: &R,
    input: &[u8],
    answers: &[u8],
    refusal: &[u8],
    closed: u32,
) -> Result<(), AllocError> {
    let mut want = Vec::from_slice(rt.alloc(), answers)?;
    want.extend_from_slice(refusal)?;
    for piece in [0, 6, 4095] {
        let (written, end, _) = served(rt.alloc(), input, piece + 1)?;
        assert_eq!(rt; end, SessionEnd::Closed(closed), "{piece}");
        assert_eq!(rt; written.as_slice(), want.as_slice(), "{piece}");
    }
    Ok(())
}

/// A column of a case.
fn column(case: &str, index: usize) -> &str {
    case.split('|').nth(index).unwrap_or("")
}

/// The refusal of this name.
fn refusal(name: &str) -> &'static str {
    match name {
        "bad head" => BAD_HEAD,
        "large head" => LARGE_HEAD,
        "large body" => LARGE_BODY,
        "coding" => CODING,
        _ => "",
    }
}

/// A session over the input of a case writes what the case says, and closes.
fn expect_case<R: Abort + AllocGlobal>(rt: &R, case: &str) -> Result<(), AllocError> {
    let closed = column(case, 3).parse().unwrap_or(u32::MAX);
    expect(
        rt,
        column(case, 0).as_bytes(),
        column(case, 1).as_bytes(),
        refusal(column(case, 2)).as_bytes(),
        closed,
    )
}

/// The input, what is answered, no refusal, and how many answers are written.
const ANSWERED: [&str; 14] = [
    "|||0",
    "HEAD /a HTTP/1.1\r\n\r\nGET /a HTTP/1.1\r\n\r\n\
    |HTTP/1.1 405 Method Not Allowed\r\nContent-Type: text/plain\r\nContent-Length: 2\r\nAllow: GET, POST\r\n\r\n\
    HTTP/1.1 200 OK\r\nContent-Type: text/plain\r\nContent-Length: 2\r\nEcho-Count: 0\r\n\r\n/a||2",
    "HEAD /a HTTP/1.0\r\n\r\n\
    |HTTP/1.1 405 Method Not Allowed\r\nContent-Type: text/plain\r\nContent-Length: 2\r\nAllow: GET, POST\r\nConnection: close\r\n\r\n\
    ||1",
    "GET /a HTTP/1.1\r\n\r\n|HTTP/1.1 200 OK\r\nContent-Type: text/plain\r\nContent-Length: 2\r\nEcho-Count: 0\r\n\r\n/a||1",
    "GET /a HTTP/1.1\nHost: x\n\n|HTTP/1.1 200 OK\r\nContent-Type: text/plain\r\nContent-Length: 2\r\nEcho-Count: 0\r\n\r\n/a||1",
    "\r\n\nGET /a HTTP/1.1\r\n\r\n|HTTP/1.1 200 OK\r\nContent-Type: text/plain\r\nContent-Length: 2\r\nEcho-Count: 0\r\n\r\n/a||1",
    "GET /a HTTP/1.1\r\n\r\nPOST /b HTTP/1.1\r\nContent-Length: 5\r\n\r\nhello\
    |HTTP/1.1 200 OK\r\nContent-Type: text/plain\r\nContent-Length: 2\r\nEcho-Count: 0\r\n\r\n/a\
    HTTP/1.1 201 Created\r\nContent-Type: text/plain\r\nContent-Length: 5\r\nEcho-Count: 1\r\n\r\nhello||2",
    "POST /b HTTP/1.1\r\ncontent-LENGTH: 0000005 \r\n\r\nhello\
    |HTTP/1.1 201 Created\r\nContent-Type: text/plain\r\nContent-Length: 5\r\nEcho-Count: 0\r\n\r\nhello||1",
    "DELETE /a HTTP/1.1\r\n\r\nPUT /a HTTP/1.1\r\n\r\n|HTTP/1.1 204 No Content\r\nEcho-Count: 0\r\n\r\n\
    HTTP/1.1 405 Method Not Allowed\r\nContent-Type: text/plain\r\nContent-Length: 2\r\nAllow: GET, POST\r\n\r\n{}||2",
    "GET /a HTTP/1.0\r\nConnection: keep-alive\r\n\r\nGET /b HTTP/1.1\r\n\r\n\
    |HTTP/1.1 200 OK\r\nContent-Type: text/plain\r\nContent-Length: 2\r\nEcho-Count: 0\r\nConnection: close\r\n\r\n/a||1",
    "GET /a HTTP/1.1\r\nConnection: keep-alive, CLOSE\r\n\r\nGET /b HTTP/1.1\r\n\r\n\
    |HTTP/1.1 200 OK\r\nContent-Type: text/plain\r\nContent-Length: 2\r\nEcho-Count: 0\r\nConnection: close\r\n\r\n/a||1",
    "GET /a HTTP/1.1\r\nconnection: x\r\nCONNECTION: ,\t close ,\r\n\r\nGET /b\
    |HTTP/1.1 200 OK\r\nContent-Type: text/plain\r\nContent-Length: 2\r\nEcho-Count: 0\r\nConnection: close\r\n\r\n/a||1",
    "GET /a HTTP/1.1\r\nConnection: closed, clos e\r\nX: close\r\n\r\n\
    |HTTP/1.1 200 OK\r\nContent-Type: text/plain\r\nContent-Length: 2\r\nEcho-Count: 0\r\n\r\n/a||1",
    "DELETE /a HTTP/1.1\r\nConnection: close\r\n\r\n|HTTP/1.1 204 No Content\r\nEcho-Count: 0\r\nConnection: close\r\n\r\n||1",
];

#[test]
fn requests_are_answered_in_order(rt: HostRuntime) -> Result<(), Fail> {
    for case in ANSWERED {
        expect_case(&rt, case)?;
    }
    Ok(())
}

/// The input, what is answered, which refusal that is, and how many answers are written with it.
const REFUSED: [&str; 15] = [
    "GET / HTTP/1.1\r\nHost||bad head|1",
    "HEAD / HTTP/1.1\r\nContent-Length: +5\r\n\r\n||bad head|1",
    "GET /a HTTP/1.1\r\n\r\n\r\n|HTTP/1.1 200 OK\r\nContent-Type: text/plain\r\nContent-Length: 2\r\nEcho-Count: 0\r\n\r\n/a|bad head|2",
    "GET /a HTTP/1.1\r\n\r\nPOST /b HTTP/1.1\r\nContent-Length: 5\r\n\r\nhell\
    |HTTP/1.1 200 OK\r\nContent-Type: text/plain\r\nContent-Length: 2\r\nEcho-Count: 0\r\n\r\n/a|bad head|2",
    "GET / HTTP/1.1\r\nContent-Length: 0\r\nContent-Length: 0\r\n\r\n||bad head|1",
    "GET / HTTP/1.1\r\nContent-Length: +5\r\n\r\nhello||bad head|1",
    "GET / HTTP/1.1\r\nContent-Length:\r\n\r\n||bad head|1",
    "GET / HTTP/1.1\r\nContent-Length: 00000000000000000000\r\n\r\n||bad head|1",
    "GET / HTTP/1.1\r\nContent-Length: 9999999999999999999\r\n\r\n||large body|1",
    "GET / HTTP/1.1\r\nContent-Length: 4194305\r\n\r\n||large body|1",
    "GET / HTTP/1.1\r\nTransfer-Encoding: chunked\r\nContent-Length: x\r\n\r\n||coding|1",
    "GET / HTTP/1.1\r\ntransfer-encoding:\r\n\r\n||coding|1",
    "GET  / HTTP/1.1\r\n\r\n||bad head|1",
    "GET / HTTP/1.1\r\nA : b\r\n\r\n||bad head|1",
    "GET / HTTP/2.0\r\n\r\n||bad head|1",
];

#[test]
fn what_is_no_request_is_refused_behind_the_answers(rt: HostRuntime) -> Result<(), Fail> {
    for case in REFUSED {
        expect_case(&rt, case)?;
    }
    Ok(())
}

/// `GET / HTTP/1.1`, a field with letters up to so many bytes, and then the end.
fn long_head(alloc: Global, letters_to: usize, end: &[u8]) -> Result<Vec<u8>, AllocError> {
    let mut text = Vec::from_slice(alloc, b"GET / HTTP/1.1\r\nA: ")?;
    text.resize(letters_to, b'a')?;
    text.extend_from_slice(end)?;
    Ok(text)
}

const ROOT: &str =
    "HTTP/1.1 200 OK\r\nContent-Type: text/plain\r\nContent-Length: 1\r\nEcho-Count: 0\r\n\r\n/";

#[test]
fn heads_past_16384_bytes_are_refused(rt: HostRuntime) -> Result<(), Fail> {
    let cases: [(usize, &str, &str); 8] = [
        (16383, "", BAD_HEAD),
        (16384, "", LARGE_HEAD),
        (16385, "", LARGE_HEAD),
        (20000, "", LARGE_HEAD),
        (16380, "\r\n\r\n", ROOT),
        (16381, "\r\n\r\n", LARGE_HEAD),
        (16000, "\u{7f}\r\n\r\n", BAD_HEAD),
        (16384, "\u{7f}\r\n\r\n", LARGE_HEAD),
    ];
    for (letters_to, end, want) in cases {
        let text = long_head(rt.alloc(), letters_to, end.as_bytes())?;
        expect(&rt, text.as_slice(), want.as_bytes(), b"", 1)?;
    }
    Ok(())
}

/// A head with so many fields.
fn many_fields(alloc: Global, count: usize) -> Result<Vec<u8>, AllocError> {
    let mut text = Vec::from_slice(alloc, b"GET / HTTP/1.1\r\n")?;
    for _ in 0..count {
        text.extend_from_slice(b"A: b\r\n")?;
    }
    text.extend_from_slice(b"\r\n")?;
    Ok(text)
}

#[test]
fn more_than_64_fields_are_refused(rt: HostRuntime) -> Result<(), Fail> {
    let some = many_fields(rt.alloc(), 64)?;
    expect(&rt, some.as_slice(), ROOT.as_bytes(), b"", 1)?;
    let many = many_fields(rt.alloc(), 65)?;
    expect(&rt, many.as_slice(), BAD_HEAD.as_bytes(), b"", 1)?;
    Ok(())
}

#[test]
fn the_thousandth_answer_closes(rt: HostRuntime) -> Result<(), Fail> {
    let mut input = Vec::new(rt.alloc());
    let mut want = Vec::new(rt.alloc());
    for number in 0..1001 {
        input.extend_from_slice(b"DELETE /a HTTP/1.1\r\n\r\n")?;
        if number < 1000 {
            let close = if number == 999 {
                "Connection: close\r\n"
            } else {
                ""
            };
            let text = format!(in rt.alloc();
                "HTTP/1.1 204 No Content\r\nEcho-Count: {number}\r\n{close}\r\n"
            )?;
            want.extend_from_slice(text.as_bytes())?;
        }
    }
    expect(&rt, input.as_slice(), want.as_slice(), b"", 1000)?;
    let (_, _, left) = served(rt.alloc(), input.as_slice(), 22)?;
    assert_eq!(rt; left, 22, "the last request is not read");
    Ok(())
}

/// The input, the read that fails, the room of the sink, what is answered, which refusal that is, and how the session ends:
/// what failed, or how many answers are written.
const FAULTS: [&str; 11] = [
    "GET /a HTTP/1.1\r\n\r\n|0|999|||source",
    "GET /a HTTP/1.1\r\n\r\n|1|999|HTTP/1.1 200 OK\r\nContent-Type: text/plain\r\nContent-Length: 2\r\nEcho-Count: 0\r\n\r\n/a||source",
    "GET /a HTTP/1.1\r\n\r\nGET /b HT|1|999|HTTP/1.1 200 OK\r\nContent-Type: text/plain\r\nContent-Length: 2\r\nEcho-Count: 0\r\n\r\n/a||source",
    "GET /a HTTP/1.1\r\n\r\nGET /b HTTP/1.1\r\nContent-Length: 5\r\n\r\nhell|1|999\
    |HTTP/1.1 200 OK\r\nContent-Type: text/plain\r\nContent-Length: 2\r\nEcho-Count: 0\r\n\r\n/a||source",
    "GET /a HTTP/1.1\r\n\r\nGET /memory HTTP/1.1\r\n\r\n|1|999\
    |HTTP/1.1 200 OK\r\nContent-Type: text/plain\r\nContent-Length: 2\r\nEcho-Count: 0\r\n\r\n/a||memory",
    "GET  |1|999||bad head|1",
    "GET / HTTP/1.1\r\nContent-Length: 4194305\r\n\r\n|1|999||large body|1",
    "GET / HTTP/1.1\r\nTransfer-Encoding: x\r\n\r\n|1|999||coding|1",
    "GET /a HTTP/1.1\r\n\r\n||0|||sink",
    "GET /a HTTP/1.1\r\n\r\n||20|HTTP/1.1 200 OK\r\nCon||sink",
    "GET /a HTTP/1.1\r\n\r\n||81|HTTP/1.1 200 OK\r\nContent-Type: text/plain\r\nContent-Length: 2\r\nEcho-Count: 0\r\n\r\n/a||1",
];

/// The end of a session that a word says.
fn end_of(word: &str) -> SessionEnd {
    match word {
        "source" => SessionEnd::SourceFault,
        "sink" => SessionEnd::SinkFault,
        "memory" => SessionEnd::Memory,
        count => SessionEnd::Closed(count.parse().unwrap_or(u32::MAX)),
    }
}

/// What a session writes over the input of a case, and how it ends.
fn served_with_faults(alloc: Global, case: &str) -> Result<(Vec<u8>, SessionEnd), AllocError> {
    let bytes = Vec::from_slice(alloc, column(case, 0).as_bytes())?;
    let mut fails = Vec::new(alloc);
    if let Ok(fail) = column(case, 1).parse::<u32>() {
        fails.push(fail)?;
    }
    let room: usize = column(case, 2).parse().unwrap_or(0);
    let mut source = BytesSource::new(bytes, fails, 4096);
    let mut sink = BytesSink::new(alloc, Vec::new(alloc), 4096, room)?;
    let (_, end) = serve(alloc, &Echo, 0, &mut source, &mut sink);
    Ok((sink.into_bytes(), end))
}

#[test]
fn what_fails_ends_the_session_behind_the_answers(rt: HostRuntime) -> Result<(), Fail> {
    for case in FAULTS {
        let mut want = Vec::from_slice(rt.alloc(), column(case, 3).as_bytes())?;
        want.extend_from_slice(refusal(column(case, 4)).as_bytes())?;
        let (written, end) = served_with_faults(rt.alloc(), case)?;
        assert_eq!(rt; end, end_of(column(case, 5)), "the end of {case}");
        assert_eq!(rt;
            written.as_slice(),
            want.as_slice(),
            "the answers to {case}"
        );
    }
    Ok(())
}

#[test]
fn bytes_behind_a_refusal_are_not_read(rt: HostRuntime) -> Result<(), Fail> {
    let mut input = Vec::from_slice(
        rt.alloc(),
        b"GET / HTTP/1.1\r\nContent-Length: 4194305\r\n\r\n",
    )?;
    input.resize(12288, b'a')?;
    let (written, end, left) = served(rt.alloc(), input.as_slice(), 4096)?;
    assert_eq!(rt; end, SessionEnd::Closed(1));
    assert_eq!(rt; written.as_slice(), LARGE_BODY.as_bytes());
    assert_eq!(rt; left, 8192);
    Ok(())
}

/// A POST with a body of so many bytes, and its answer.
fn with_body(alloc: Global, count: usize) -> Result<(Vec<u8>, Vec<u8>), AllocError> {
    let mut body = Vec::new(alloc);
    body.resize(count, b'b')?;
    let head = format!(in alloc; "POST /b HTTP/1.1\r\nContent-Length: {count}\r\n\r\n")?;
    let front = format!(in alloc;
        "HTTP/1.1 201 Created\r\nContent-Type: text/plain\r\nContent-Length: {count}\r\nEcho-Count: 0\r\n\r\n"
    )?;
    let mut input = head.into_bytes();
    input.extend_from_slice(body.as_slice())?;
    let mut answer = front.into_bytes();
    answer.extend_from_slice(body.as_slice())?;
    Ok((input, answer))
}

#[test]
fn a_body_of_100_kilobytes_comes_in_pieces(rt: HostRuntime) -> Result<(), Fail> {
    let (input, answer) = with_body(rt.alloc(), 102_400)?;
    expect(&rt, input.as_slice(), answer.as_slice(), b"", 1)?;
    Ok(())
}
