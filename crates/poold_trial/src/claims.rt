//! Two workers of `serve` claim numbers of one range that a store holds.
ghost use Rattle.std.specs.Prelude.{◌≡◌, [], IfOk};
ghost use Rattle.ipam_listen.specs.ListLanes.{lane_told};

use crate::exchanges::put_request;
use crate::running::run_words;
use crate::stores::opener_of;
use ipam_edge::{BytesSink, BytesSource};
use ipam_listen::{ListLane, ListListener};
use meeting_lanes::{Meeting, MeetingListener};
use std::alloc::{AllocError, Global};
use std::str;
use std::test::Fail;

/// The store: a range of twenty numbers.
const STORE: &str = "2 1;range 1 asn a 64512 64531";

/// A claim of one number of it.
const CLAIM: &str = "POST /api/ipam/asn-ranges/1/available-asns/|{}";

/// How often a worker looks whether the other one has come, at most.
const TURNS: u32 = 1_000_000;

/// What a client asks that makes ten claims.
fn asked(alloc: Global) -> Result<Vec<u8>, AllocError> {
    let mut asked = Vec::new(alloc);
    for _ in 0..10 {
        put_request(alloc, &mut asked, CLAIM)?;
    }
    Ok(asked)
}

/// A lane with one such connection.
fn lane_of(alloc: Global) -> Result<ListLane, AllocError>
    ensures { IfOk result (λ l. lane_told l ≡ []) }
{
    let source = BytesSource::new(asked(alloc)?, Vec::new(alloc), 1000);
    let sink = BytesSink::new(alloc, Vec::new(alloc), 1000, 65_536)?;
    let mut pairs = Vec::new(alloc);
    pairs.push((source, sink))?;
    ListLane::new(alloc, pairs, Vec::new(alloc))
}

/// A listener with two such lanes.
fn listener_of(alloc: Global) -> Result<ListListener, AllocError> {
    let mut lanes = Vec::new(alloc);
    lanes.push(lane_of(alloc)?)?;
    lanes.push(lane_of(alloc)?)?;
    ListListener::new(alloc, lanes)
}

/// Puts what was written to the connections of a lane at the end of a text.
fn tell_lane(lane: &ListLane, told: &mut String) -> Result<(), AllocError> {
    for handed in lane.handed() {
        if let Some(pair) = handed.finished() {
            told.push_str(str::from_utf8(pair.1.bytes()).unwrap_or(""))?;
        }
    }
    Ok(())
}

/// The same for all lanes that were given back.
fn tell(listener: &ListListener, told: &mut String) -> Result<(), AllocError> {
    for lane in listener.returned() {
        tell_lane(lane, told)?;
    }
    Ok(())
}

/// How often a part occurs in a text.
fn times<'a>(text: &'a str, part: &'a str) -> usize {
    text.split(part).count().saturating_sub(1)
}

/// How many of the twenty numbers a text has just once.
fn told_once(alloc: Global, told: &str) -> Result<u32, AllocError> {
    let mut once: u32 = 0;
    for number in 64_512..=64_531 {
        let named = format!(in alloc; "\"asn\":{number},")?;
        if times(told, named.as_str()) == 1 {
            once = once.saturating_add(1);
        }
    }
    Ok(once)
}

#[test]
fn two_workers_claim_twenty_numbers(rt: HostRuntime) -> Result<(), Fail> {
    let mut opener = opener_of(rt.alloc(), STORE)?;
    let mut listener = listener_of(rt.alloc())?;
    let words = "serve --bind x --workers 2 --connections 1 --db a";
    let left = run_words(
        &rt,
        rt.alloc(),
        words,
        b"",
        1_000,
        &mut listener,
        &mut opener,
    )?;
    assert!(rt; left.status == 0 && left.output.as_slice() == b"entries 20\n".as_slice());
    let mut told = String::new(rt.alloc());
    tell(&listener, &mut told)?;
    assert_eq!(rt;
        times(told.as_str(), "HTTP/1.1 201 Created\r\n"),
        20,
        "{told}"
    );
    assert_eq!(rt; told_once(rt.alloc(), told.as_str())?, 20, "{told}");
    Ok(())
}

#[test]
fn workers_run_at_once(rt: HostRuntime) -> Result<(), Fail> {
    let alloc = rt.alloc();
    let meeting = Meeting::new(2, TURNS);
    let bytes = asked(alloc)?;
    let text = str::from_utf8(bytes.as_slice()).unwrap_or("");
    let mut opener = opener_of(alloc, STORE)?;
    let mut listener = MeetingListener::new(alloc, &[text, text], &meeting)?;
    let words = "serve --bind x --workers 2 --connections 1 --db a";
    let left = run_words(&rt, alloc, words, b"", 1_000, &mut listener, &mut opener)?;
    assert!(rt; left.status == 0 && left.output.as_slice() == b"entries 20\n".as_slice());
    assert_eq!(rt; meeting.given_up(), 0);
    assert_eq!(rt; listener.answers().len(), 2);
    Ok(())
}
