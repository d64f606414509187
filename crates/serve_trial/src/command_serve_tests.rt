//! `serve` over connections and a store in memory, over a listener without lanes, and over tables that are refused.
ghost use Rattle.std.specs.Prelude.{◌≡◌, [], All, IfOk};
ghost use Rattle.ipam_listen.specs.ListLanes.{lane_told};

use command_serve::run_serve;
use command_words::{Command, Serving, read_words};
use ipam_edge::{BytesSink, BytesSource};
use ipam_keeper::empty::empty_tables;
use ipam_keeper::memory::MemoryKeeper;
use ipam_keeper::opener::MemoryOpener;
use ipam_listen::{ListLane, ListListener, Listener};
use meeting_lanes::{Meeting, MeetingListener};
use std::alloc::{AllocError, Global};
use std::marker::Sync;
use std::str;
use std::sync::Wait;
use std::test::Fail;
use std::thread::Threads;
use stored_tables::tables::{Tables, Text};

/// What the clients ask, a line each: three prefixes are made.
const CLIENTS: [&str; 3] = [
    "POST /api/ipam/prefixes/ HTTP/1.1\r\nHost: ipam\r\nContent-Length: 24\r\n\r\n{\"prefix\":\"10.1.0.0/16\"}\
     POST /api/ipam/prefixes/ HTTP/1.1\r\nHost: ipam\r\nContent-Length: 24\r\n\r\n{\"prefix\":\"10.2.0.0/16\"}\
     POST /api/ipam/prefixes/ HTTP/1.1\r\nHost: ipam\r\nContent-Length: 24\r\n\r\n{\"prefix\":\"10.3.0.0/16\"}",
    "POST /api/ipam/prefixes/ HTTP/1.1\r\nHost: ipam\r\nContent-Length: 24\r\n\r\n{\"prefix\":\"10.4.0.0/16\"}\
     POST /api/ipam/prefixes/ HTTP/1.1\r\nHost: ipam\r\nContent-Length: 24\r\n\r\n{\"prefix\":\"10.5.0.0/16\"}\
     POST /api/ipam/prefixes/ HTTP/1.1\r\nHost: ipam\r\nContent-Length: 24\r\n\r\n{\"prefix\":\"10.6.0.0/16\"}",
    "POST /api/ipam/prefixes/ HTTP/1.1\r\nHost: ipam\r\nContent-Length: 24\r\n\r\n{\"prefix\":\"10.7.0.0/16\"}\
     POST /api/ipam/prefixes/ HTTP/1.1\r\nHost: ipam\r\nContent-Length: 24\r\n\r\n{\"prefix\":\"10.8.0.0/16\"}\
     POST /api/ipam/prefixes/ HTTP/1.1\r\nHost: ipam\r\nContent-Length: 24\r\n\r\n{\"prefix\":\"10.9.0.0/16\"}",
];

/// How often a worker looks whether the other ones have come, at most.
const TURNS: u32 = 1_000_000;

/// What a run left: its status, the output, the messages.
#[derive(Drop)]
struct Left {
    status: u8,
    output: Vec<u8>,
    errors: Vec<u8>,
}

/// A lane with one connection, which asks for this; the accepts of these numbers fail.
fn lane_of(alloc: Global, asked: &str, fails: &[u32]) -> Result<ListLane, AllocError>
    ensures { IfOk result (λ l. lane_told l ≡ []) }
{
    let source = BytesSource::new(
        Vec::from_slice(alloc, asked.as_bytes())?,
        Vec::new(alloc),
        1000,
    );
    let sink = BytesSink::new(alloc, Vec::new(alloc), 1000, 4096)?;
    let mut pairs = Vec::new(alloc);
    pairs.push((source, sink))?;
    ListLane::new(alloc, pairs, Vec::from_slice(alloc, fails)?)
}

/// A listener with a lane for each client.
fn listener_of(alloc: Global, fails: &[u32]) -> Result<ListListener, AllocError> {
    let mut lanes = Vec::new(alloc);
    lanes.push(lane_of(alloc, CLIENTS[0], fails)?)?;
    lanes.push(lane_of(alloc, CLIENTS[1], fails)?)?;
    lanes.push(lane_of(alloc, CLIENTS[2], fails)?)?;
    ListListener::new(alloc, lanes)
}

/// A lane whose client makes one prefix, that of this number.
fn lane_numbered(alloc: Global, number: u32) -> Result<ListLane, AllocError>
    ensures { IfOk result (λ l. lane_told l ≡ []) }
{
    let asked = format!(in alloc;
        "POST /api/ipam/prefixes/ HTTP/1.1\r\nHost: ipam\r\nContent-Length: 25\r\n\r\n{{\"prefix\":\"10.{number}.0.0/16\"}}"
    )?;
    lane_of(alloc, asked.as_str(), &[])
}

/// Such lanes, as many as there may be workers.
fn all_lanes(alloc: Global) -> Result<Vec<ListLane>, AllocError>
    ensures { IfOk result (λ lanes. All (λ l. lane_told l ≡ []) lanes.items) }
{
    let mut lanes = Vec::new(alloc);
    'numbers: for number in 10..42u32 {
        let lane = lane_numbered(alloc, number)?;
        lanes.push(lane)?;
    }
    Ok(lanes)
}

/// A listener with these lanes.
fn listener_of_all(alloc: Global) -> Result<ListListener, AllocError> {
    ListListener::new(alloc, all_lanes(alloc)?)
}

/// Puts what was written to the connections of the lanes that were given back at the end of a text.
fn tell(listener: &ListListener, told: &mut String) -> Result<(), AllocError> {
    for lane in listener.returned() {
        for handed in lane.handed() {
            if let Some(pair) = handed.finished() {
                told.push_str(str::from_utf8(pair.1.bytes()).unwrap_or(""))?;
            }
        }
    }
    Ok(())
}

/// How often a part occurs in a text.
fn times<'a>(text: &'a str, part: &'a str) -> usize {
    text.split(part).count().saturating_sub(1)
}

/// Whether each of the ids from 1 up to this one is answered once, and no other prefix is made.
fn has_each_once(alloc: Global, told: &str, last: u32) -> Result<bool, AllocError> {
    for id in 1..=last {
        let named = format!(in alloc; "\"id\":{id},")?;
        if times(told, named.as_str()) != 1 {
            return Ok(false);
        }
    }
    Ok(times(told, "HTTP/1.1 201 Created\r\n") == last as usize)
}

/// An opener that has tables of this version under the path `a`.
fn opener_of(alloc: Global, version: u32) -> Result<MemoryOpener, AllocError> {
    let tables = MemoryKeeper::new(empty_tables(alloc)?, Vec::new(alloc)).into_tables();
    let tables = Tables {
        version,
        next: tables.next,
        rows: tables.rows,
    };
    let mut stored = Vec::new(alloc);
    stored.push((Text::of(String::from_str(alloc, "a")?), tables))?;
    Ok(MemoryOpener::new(stored, Vec::new(alloc)))
}

/// Runs `serve` for as many workers as may be asked for.
fn run_few<R: Threads + Wait + Sync, L: Listener>(
    rt: &R,
    alloc: Global,
    serving: &Serving,
    streams: (&mut BytesSink, &mut BytesSink),
    listener: &mut L,
    opener: &mut MemoryOpener,
) -> u8 {
    if serving.workers == 0 || serving.workers > 32 {
        return 9;
    }
    let (output, errors) = streams;
    run_serve(rt, alloc, serving, output, errors, listener, opener)
}

/// Runs these words of `serve`.
fn ran<R: Threads + Wait + Sync, L: Listener>(
    rt: &R,
    alloc: Global,
    words: &[&str],
    listener: &mut L,
    opener: &mut MemoryOpener,
) -> Result<Left, AllocError> {
    let mut output = BytesSink::new(alloc, Vec::new(alloc), 1000, 4096)?;
    let mut errors = BytesSink::new(alloc, Vec::new(alloc), 1000, 4096)?;
    let Some(Command::Serve(serving)) = read_words(alloc, words)? else {
        return Err(AllocError);
    };
    let status = run_few(
        rt,
        alloc,
        &serving,
        (&mut output, &mut errors),
        listener,
        opener,
    );
    Ok(Left {
        status,
        output: output.into_bytes(),
        errors: errors.into_bytes(),
    })
}

#[test]
fn who_is_served_and_who_is_not(rt: HostRuntime) -> Result<(), Fail> {
    let alloc = rt.alloc();
    let words = [
        "serve",
        "--bind",
        "x",
        "--workers=3",
        "--connections=1",
        "--db=a",
    ];
    let mut opener = opener_of(alloc, 2)?;
    let mut listener = listener_of(alloc, &[])?;
    let left = ran(&rt, alloc, &words, &mut listener, &mut opener)?;
    assert!(rt; left.status == 0 && left.errors.is_empty());
    assert!(rt; left.output.as_slice() == b"entries 9\n".as_slice());
    let mut told = String::new(alloc);
    tell(&listener, &mut told)?;
    assert!(rt; has_each_once(alloc, told.as_str(), 9)?, "{told}");
    let mut listener = ListListener::new(alloc, Vec::new(alloc))?;
    let left = ran(&rt, alloc, &words, &mut listener, &mut opener)?;
    assert!(rt; left.status == 3 && left.errors.is_empty());
    assert!(rt; left.output.as_slice() == b"entries 0\n".as_slice());
    let mut opener = opener_of(alloc, 9)?;
    let mut listener = ListListener::new(alloc, Vec::new(alloc))?;
    let left = ran(&rt, alloc, &words, &mut listener, &mut opener)?;
    assert!(rt; left.status == 1 && left.output.is_empty());
    assert!(rt; left.errors.as_slice() == b"store: version 9\n".as_slice());
    Ok(())
}

#[test]
fn a_failed_accept_is_told(rt: HostRuntime) -> Result<(), Fail> {
    let alloc = rt.alloc();
    let words = ["serve", "--bind", "x", "--workers=3", "--connections=2"];
    let mut opener = opener_of(alloc, 2)?;
    let mut listener = listener_of(alloc, &[0])?;
    let left = ran(&rt, alloc, &words, &mut listener, &mut opener)?;
    assert!(rt; left.status == 3 && left.errors.is_empty());
    assert!(rt; left.output.as_slice() == b"entries 9\n".as_slice());
    let mut told = String::new(alloc);
    tell(&listener, &mut told)?;
    assert!(rt; has_each_once(alloc, told.as_str(), 9)?, "{told}");
    Ok(())
}

#[test]
fn as_many_workers_as_there_may_be_serve_one_register(rt: HostRuntime) -> Result<(), Fail> {
    let alloc = rt.alloc();
    let words = ["serve", "--bind", "x", "--workers=32", "--connections=1"];
    let mut opener = opener_of(alloc, 2)?;
    let mut listener = listener_of_all(alloc)?;
    let left = ran(&rt, alloc, &words, &mut listener, &mut opener)?;
    assert!(rt; left.status == 0 && left.errors.is_empty());
    assert!(rt; left.output.as_slice() == b"entries 32\n".as_slice());
    let mut told = String::new(alloc);
    tell(&listener, &mut told)?;
    assert!(rt; has_each_once(alloc, told.as_str(), 32)?, "{told}");
    Ok(())
}

#[test]
fn workers_run_at_once(rt: HostRuntime) -> Result<(), Fail> {
    let alloc = rt.alloc();
    let words = ["serve", "--bind", "x", "--workers=3", "--connections=1"];
    let meeting = Meeting::new(3, TURNS);
    let mut opener = opener_of(alloc, 2)?;
    let mut listener = MeetingListener::new(alloc, &CLIENTS, &meeting)?;
    let left = ran(&rt, alloc, &words, &mut listener, &mut opener)?;
    assert!(rt; left.status == 0 && left.errors.is_empty());
    assert_eq!(rt; meeting.given_up(), 0);
    assert_eq!(rt; listener.answers().len(), 3);
    Ok(())
}
