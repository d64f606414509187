//! `mirror` over connections and a store in memory, over a listener without lanes, and over tables that are refused.
ghost use Rattle.std.specs.Prelude.{◌≡◌, [], IfOk};
ghost use Rattle.ipam_listen.specs.ListLanes.{lane_told};

use command_mirror::run_mirror;
use command_words::{Command, Mirroring, read_words};
use ipam_edge::{BytesSink, BytesSource, Source};
use ipam_keeper::empty::empty_tables;
use ipam_keeper::memory::MemoryKeeper;
use ipam_keeper::opener::MemoryOpener;
use ipam_listen::{ListLane, ListListener, Listener};
use meeting_lanes::{Meeting, MeetingListener, MeetingSource};
use std::alloc::{AllocError, Global};
use std::marker::Sync;
use std::str;
use std::sync::Wait;
use std::test::Fail;
use std::thread::Threads;
use stored_tables::tables::{Tables, Text};

/// What the operator asks: two prefixes are made.
const OPERATOR: &str =
    "POST /api/ipam/prefixes/ HTTP/1.1\r\nHost: ipam\r\nContent-Length: 24\r\n\r\n{\"prefix\":\"10.1.0.0/16\"}\
     POST /api/ipam/prefixes/ HTTP/1.1\r\nHost: ipam\r\nContent-Length: 24\r\n\r\n{\"prefix\":\"10.2.0.0/16\"}";

/// What each reader is asked.
const READER: &str = "GET /api/ipam/prefixes/ HTTP/1.1\r\nHost: ipam\r\n\r\n\
     GET /api/ipam/roles/ HTTP/1.1\r\nHost: ipam\r\n\r\n";

/// How often a reader looks whether the other one has come, at most.
const TURNS: u32 = 1_000_000;

/// What a run left: its status, the output, the messages.
#[derive(Drop)]
struct Left {
    status: u8,
    output: Vec<u8>,
    errors: Vec<u8>,
}

/// Bytes to read, up to 1,000 at once.
fn source_of(alloc: Global, text: &str) -> Result<BytesSource, AllocError> {
    Ok(BytesSource::new(
        Vec::from_slice(alloc, text.as_bytes())?,
        Vec::new(alloc),
        1000,
    ))
}

/// A lane with one connection of a reader.
fn lane_of(alloc: Global) -> Result<ListLane, AllocError>
    ensures { IfOk result (λ l. lane_told l ≡ []) }
{
    let source = source_of(alloc, READER)?;
    let sink = BytesSink::new(alloc, Vec::new(alloc), 1000, 4096)?;
    let mut pairs = Vec::new(alloc);
    pairs.push((source, sink))?;
    ListLane::new(alloc, pairs, Vec::new(alloc))
}

/// A listener with two lanes.
fn listener_of(alloc: Global) -> Result<ListListener, AllocError> {
    let mut lanes = Vec::new(alloc);
    lanes.push(lane_of(alloc)?)?;
    lanes.push(lane_of(alloc)?)?;
    ListListener::new(alloc, lanes)
}

/// Puts what was written to the connections of the lanes that were given back at the end of a text.
fn tell(listener: &ListListener, told: &mut String) -> Result<(), AllocError> {
    for lane in listener.returned() {
        for handed in lane.handed() {
            if let Some(pair) = handed.finished() {
                told.push_str(str::from_utf8(pair.1.bytes()).unwrap_or(""))?;
            }
        }
    }
    Ok(())
}

/// How often a part occurs in a text.
fn times<'a>(text: &'a str, part: &'a str) -> usize {
    text.split(part).count().saturating_sub(1)
}

/// An opener that has tables of this version under the path `a`.
fn opener_of(alloc: Global, version: u32) -> Result<MemoryOpener, AllocError> {
    let tables = MemoryKeeper::new(empty_tables(alloc)?, Vec::new(alloc)).into_tables();
    let tables = Tables {
        version,
        next: tables.next,
        rows: tables.rows,
    };
    let mut stored = Vec::new(alloc);
    stored.push((Text::of(String::from_str(alloc, "a")?), tables))?;
    Ok(MemoryOpener::new(stored, Vec::new(alloc)))
}

/// What is asked for: two readers, with one connection each, over the store `a`.
fn asked(alloc: Global) -> Result<Mirroring, AllocError> {
    let words = [
        "mirror",
        "--bind",
        "x",
        "--readers=2",
        "--connections=1",
        "--db=a",
    ];
    match read_words(alloc, &words)? {
        Some(Command::Mirror(asked)) => Ok(asked),
        _ => Err(AllocError),
    }
}

/// Runs `mirror` for as many readers as may be asked for.
fn run_few<R: Threads + Wait + Sync, So: Source, L: Listener>(
    rt: &R,
    alloc: Global,
    asked: &Mirroring,
    streams: (&mut So, &mut BytesSink, &mut BytesSink),
    listener: &mut L,
    opener: &mut MemoryOpener,
) -> u8 {
    if asked.readers > 16 {
        return 9;
    }
    let (input, output, errors) = streams;
    run_mirror(rt, alloc, asked, input, output, errors, listener, opener)
}

/// Runs it over the operator's requests.
fn ran<R: Threads + Wait + Sync, L: Listener>(
    rt: &R,
    alloc: Global,
    listener: &mut L,
    opener: &mut MemoryOpener,
) -> Result<Left, AllocError> {
    let mut input = source_of(alloc, OPERATOR)?;
    ran_over(rt, alloc, &mut input, listener, opener)
}

/// Runs it over an input.
fn ran_over<R: Threads + Wait + Sync, So: Source, L: Listener>(
    rt: &R,
    alloc: Global,
    input: &mut So,
    listener: &mut L,
    opener: &mut MemoryOpener,
) -> Result<Left, AllocError> {
    let mut output = BytesSink::new(alloc, Vec::new(alloc), 1000, 4096)?;
    let mut errors = BytesSink::new(alloc, Vec::new(alloc), 1000, 4096)?;
    let asked = asked(alloc)?;
    let status = run_few(
        rt,
        alloc,
        &asked,
        (input, &mut output, &mut errors),
        listener,
        opener,
    );
    Ok(Left {
        status,
        output: output.into_bytes(),
        errors: errors.into_bytes(),
    })
}

#[test]
fn who_is_served_and_who_is_not(rt: HostRuntime) -> Result<(), Fail> {
    let alloc = rt.alloc();
    let mut opener = opener_of(alloc, 2)?;
    let mut listener = listener_of(alloc)?;
    let left = ran(&rt, alloc, &mut listener, &mut opener)?;
    let output = str::from_utf8(left.output.as_slice()).unwrap_or("");
    assert!(rt;
        left.status == 0 && left.errors.is_empty(),
        "{}",
        left.status
    );
    assert_eq!(rt; times(output, "HTTP/1.1 201 Created\r\n"), 2, "{output}");
    let mut told = String::new(alloc);
    tell(&listener, &mut told)?;
    assert_eq!(rt; times(told.as_str(), "HTTP/1.1 200 OK\r\n"), 2, "{told}");
    assert_eq!(rt;
        times(told.as_str(), "HTTP/1.1 404 Not Found\r\n"),
        2,
        "{told}"
    );
    let mut listener = ListListener::new(alloc, Vec::new(alloc))?;
    let left = ran(&rt, alloc, &mut listener, &mut opener)?;
    assert!(rt; left.status == 3 && left.errors.is_empty() && left.output.is_empty());
    let mut opener = opener_of(alloc, 9)?;
    let mut listener = listener_of(alloc)?;
    let left = ran(&rt, alloc, &mut listener, &mut opener)?;
    assert!(rt; left.status == 1 && left.output.is_empty());
    assert!(rt; left.errors.as_slice() == b"store: version 9\n".as_slice());
    assert!(rt; listener.returned().is_empty());
    Ok(())
}

/// What each reader is asked when the operator's changes are published.
const LATER: &str = "GET /api/ipam/prefixes/?least=2&limit=1 HTTP/1.1\r\nHost: ipam\r\n\r\n";

/// Whether a reader was told of both prefixes.
fn has_both(sink: &BytesSink) -> bool {
    let told = str::from_utf8(sink.bytes()).unwrap_or("");
    times(told, "HTTP/1.1 200 OK\r\n") == 1 && times(told, "{\"count\":2,") == 1
}

/// The readers wait for each other, and for the operator's last answer.
#[test]
fn readers_run_at_once_and_see_what_was_made(rt: HostRuntime) -> Result<(), Fail> {
    let alloc = rt.alloc();
    let meeting = Meeting::new(3, TURNS);
    let mut opener = opener_of(alloc, 2)?;
    let mut listener = MeetingListener::new(alloc, &[LATER, LATER], &meeting)?;
    let mut input = MeetingSource::last(source_of(alloc, OPERATOR)?, &meeting);
    let left = ran_over(&rt, alloc, &mut input, &mut listener, &mut opener)?;
    assert!(rt; left.status == 0 && left.errors.is_empty());
    assert_eq!(rt; meeting.given_up(), 0);
    assert_eq!(rt; listener.answers().len(), 2);
    assert!(rt; listener.answers().iter().all(|sink| has_both(sink)));
    Ok(())
}
