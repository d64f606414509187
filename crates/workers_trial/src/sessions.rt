//! Sessions of a register that ends with them: how many answers each says that it wrote.
ghost use Rattle.std.specs.Prelude.{◌≡◌, ◌<◌};

use crate::registers::locked;
use ipam_edge::{BytesSink, BytesSource};
use rest_ipam::{SessionEnd, serve_session};
use std::alloc::{AllocError, Global};
use std::marker::Sync;
use std::str;
use std::sync::Wait;
use std::test::Fail;

/// What a client sends that ends in the middle of the head of its first request, or of the body of its second one: a line each, with a semicolon
/// for the end of a line, and after the bar how many answers are written.
const CASES: &str = "\
GET / HTTP/1.1;Host|1
POST /api/ipam/prefixes/ HTTP/1.1;Content-Length: 24;;{\"prefix\":\"10.0.0.0/24\"}POST /api/ipam/vrfs/ HTTP/1.1;Content-Length: 14;;{\"name\"|2
";

/// The end of the last answer of each: no request could be read, and the connection is closed.
const LAST: &str =
    "HTTP/1.1 400 Bad Request\r\nContent-Type: application/json\r\nContent-Length: 60\r\nConnection: close\r\n\r\n{\"code\":\"bad_head\",\"detail\":\"the request could not be read\"}";

/// What a client is answered over a register without rows, and how its session ends.
fn session_of<R: Wait + Sync>(
    rt: &R,
    alloc: Global,
    asked: &str,
) -> Result<(Vec<u8>, SessionEnd), AllocError> {
    let bytes = asked.replace(alloc, ";", "\r\n")?.into_bytes();
    let mut source = BytesSource::new(bytes, Vec::new(alloc), 7);
    let mut sink = BytesSink::new(alloc, Vec::new(alloc), 4096, 4096)?;
    let (shared, seat) = locked(alloc)?;
    let (seat, end) = serve_session(rt, alloc, &shared, seat, &mut source, &mut sink);
    drop(seat);
    drop(shared);
    Ok((sink.into_bytes(), end))
}

/// How often a part occurs in a text.
fn times<'a>(text: &'a str, part: &'a str) -> usize {
    text.split(part).count().saturating_sub(1)
}

#[test]
fn a_session_says_how_many_answers_it_wrote(rt: HostRuntime) -> Result<(), Fail> {
    for case in CASES.lines() {
        let (asked, count) = case.split_once('|').ok_or("a line without a bar")?;
        let count = count.parse::<u32>()?;
        let (written, end) = session_of(&rt, rt.alloc(), asked)?;
        let written = str::from_utf8(written.as_slice())?;
        assert_eq!(rt; end, SessionEnd::Closed(count), "{asked}");
        assert_eq!(rt; times(written, "HTTP/1.1 "), count as usize, "{written}");
        assert!(rt; written.ends_with(LAST), "{written}");
    }
    Ok(())
}

#[test]
fn a_seat_is_split_and_joined(rt: HostRuntime) -> Result<(), Fail> {
    let (shared, seat) = locked(rt.alloc())?;
    let first = (seat.who(), seat.spare(), seat.weight());
    let (left, right) = shared.split(seat, 1);
    let halves = (left.weight(), right.weight());
    let whole = shared.join(left, right);
    let joined = (whole.who(), whole.weight());
    drop(shared.close(whole));
    assert_eq!(rt; first, (0, 65_536, 65_536));
    assert_eq!(rt; halves, (65_535, 1));
    assert_eq!(rt; joined, (0, 65_536));
    Ok(())
}
