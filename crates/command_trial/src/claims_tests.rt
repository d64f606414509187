//! Two workers of the command claim addresses of one prefix that a store holds.
ghost use Rattle.std.specs.Prelude.{◌≡◌, [], IfOk};
ghost use Rattle.ipam_listen.specs.ListLanes.{lane_told};

use ipam_command::run;
use ipam_edge::{BytesSink, BytesSource};
use ipam_keeper::opener::MemoryOpener;
use ipam_listen::{ListLane, ListListener};
use std::alloc::{AllocError, Global};
use std::marker::Sync;
use std::str;
use std::sync::Wait;
use std::test::Fail;
use std::thread::Threads;

/// The prefix.
const PREFIX: &[u8] =
    b"POST /api/ipam/prefixes/ HTTP/1.1\r\nHost: ipam\r\nContent-Length: 24\r\n\r\n{\"prefix\":\"10.0.0.0/24\"}";

/// A claim of one address of it.
const CLAIM: &[u8] =
    b"POST /api/ipam/prefixes/1/available-ips/ HTTP/1.1\r\nHost: ipam\r\nContent-Length: 2\r\n\r\n{}";

/// What a run left.
#[derive(Drop)]
struct Left {
    status: u8,
    output: Vec<u8>,
}

/// Runs words, with one space between two of them.
fn run_words<R: Threads + Wait + Sync>(
    rt: &R,
    alloc: Global,
    words: &str,
    input: &[u8],
    listener: &mut ListListener,
    opener: &mut MemoryOpener,
) -> Result<Left, AllocError> {
    let mut list = Vec::new(alloc);
    for word in words.split(' ') {
        list.push(word)?;
    }
    let bytes = Vec::from_slice(alloc, input)?;
    let mut input = BytesSource::new(bytes, Vec::new(alloc), 1000);
    let mut output = BytesSink::new(alloc, Vec::new(alloc), 1000, 4096)?;
    let mut errors = BytesSink::new(alloc, Vec::new(alloc), 1000, 4096)?;
    let status = run(
        rt,
        alloc,
        &list,
        &mut input,
        &mut output,
        &mut errors,
        listener,
        opener,
    );
    Ok(Left {
        status,
        output: output.into_bytes(),
    })
}

/// What a client asks that makes ten claims.
fn asked(alloc: Global) -> Result<Vec<u8>, AllocError> {
    let mut asked = Vec::new(alloc);
    for _ in 0..10 {
        asked.extend_from_slice(CLAIM)?;
    }
    Ok(asked)
}

/// A lane with one such connection.
fn lane_of(alloc: Global) -> Result<ListLane, AllocError>
    ensures { IfOk result (λ l. lane_told l ≡ []) }
{
    let source = BytesSource::new(asked(alloc)?, Vec::new(alloc), 1000);
    let sink = BytesSink::new(alloc, Vec::new(alloc), 1000, 65_536)?;
    let mut pairs = Vec::new(alloc);
    pairs.push((source, sink))?;
    ListLane::new(alloc, pairs, Vec::new(alloc))
}

/// A listener with two such lanes.
fn listener_of(alloc: Global) -> Result<ListListener, AllocError> {
    let mut lanes = Vec::new(alloc);
    lanes.push(lane_of(alloc)?)?;
    lanes.push(lane_of(alloc)?)?;
    ListListener::new(alloc, lanes)
}

/// Puts what was written to the connections of a lane at the end of a text.
fn tell_lane(lane: &ListLane, told: &mut String) -> Result<(), AllocError> {
    for handed in lane.handed() {
        if let Some(pair) = handed.finished() {
            told.push_str(str::from_utf8(pair.1.bytes()).unwrap_or(""))?;
        }
    }
    Ok(())
}

/// The same for all lanes that were given back.
fn tell(listener: &ListListener, told: &mut String) -> Result<(), AllocError> {
    for lane in listener.returned() {
        tell_lane(lane, told)?;
    }
    Ok(())
}

/// How often a part occurs in a text.
fn times<'a>(text: &'a str, part: &'a str) -> usize {
    text.split(part).count().saturating_sub(1)
}

/// How many of the first twenty addresses of the prefix a text has just once.
fn told_once(alloc: Global, told: &str) -> Result<u32, AllocError> {
    let mut once: u32 = 0;
    for last in 1..=20 {
        let named = format!(in alloc; "\"address\":\"10.0.0.{last}/24\"")?;
        if times(told, named.as_str()) == 1 {
            once = once.saturating_add(1);
        }
    }
    Ok(once)
}

/// Puts the prefix into the store under the path `a`.
fn put_prefix<R: Threads + Wait + Sync>(
    rt: &R,
    alloc: Global,
    opener: &mut MemoryOpener,
) -> Result<Left, AllocError> {
    let mut nobody = ListListener::new(alloc, Vec::new(alloc))?;
    run_words(rt, alloc, "session --db a", PREFIX, &mut nobody, opener)
}

#[test]
fn two_workers_claim_twenty_addresses(rt: HostRuntime) -> Result<(), Fail> {
    let mut opener = MemoryOpener::new(Vec::new(rt.alloc()), Vec::new(rt.alloc()));
    let made = put_prefix(&rt, rt.alloc(), &mut opener)?;
    assert_eq!(rt; made.status, 0);
    let mut listener = listener_of(rt.alloc())?;
    let words = "serve --bind x --workers 2 --connections 1 --db a";
    let left = run_words(&rt, rt.alloc(), words, b"", &mut listener, &mut opener)?;
    assert!(rt; left.status == 0 && left.output.ends_with(b"entries 20\n"));
    let mut told = String::new(rt.alloc());
    tell(&listener, &mut told)?;
    assert_eq!(rt;
        times(told.as_str(), "HTTP/1.1 201 Created\r\n"),
        20,
        "{told}"
    );
    assert_eq!(rt; told_once(rt.alloc(), told.as_str())?, 20, "{told}");
    Ok(())
}
