//! `mirror` whose operator and reader hold each other: each goes on when the other has come as far as it is to, or gives up.
ghost use Rattle.std.specs.Prelude.{◌≡◌, ◌≤◌, ◌<◌, map, vec_len, vec_capacity};
ghost use Rattle.ipam_listen.specs.Connections.{binding};

use ipam_command::run;
use ipam_edge::{BytesSink, BytesSource, Failed, Source};
use ipam_keeper::opener::MemoryOpener;
use ipam_listen::{Lane, Listener};
use std::alloc::{AllocError, Global};
use std::marker::Sync;
use std::str;
use std::sync::Wait;
use std::sync::atomic::{AtomicU32, Ordering};
use std::test::Fail;
use std::thread::{Threads, yield_now};

/// How often one looks whether the other has come, at most.
const TURNS: u32 = 1_000_000;

/// The words: one reader with one connection.
const WORDS: &[&str] = &[
    "mirror",
    "--bind",
    "x",
    "--readers",
    "1",
    "--connections",
    "1",
];

/// The operator makes two prefixes, and a read gives one of its requests; the reader is then asked for both.
const TWO: &str =
    "POST /api/ipam/prefixes/ HTTP/1.1\r\nHost: ipam\r\nContent-Length: 24\r\n\r\n{\"prefix\":\"10.1.0.0/16\"}\
     POST /api/ipam/prefixes/ HTTP/1.1\r\nHost: ipam\r\nContent-Length: 24\r\n\r\n{\"prefix\":\"10.2.0.0/16\"}";

const BOTH: &str = "GET /api/ipam/prefixes/?least=2 HTTP/1.1\r\nHost: ipam\r\n\r\n";

const BOTH_ANSWERED: &str =
    "HTTP/1.1 200 OK\r\nContent-Type: application/json\r\nContent-Length: 429\r\nIpam-Place: 2\r\n\r\n\
     {\"count\":2,\"next\":null,\"previous\":null,\"results\":[\
     {\"children\":0,\"depth\":0,\"description\":\"\",\"family\":4,\"id\":1,\"is_pool\":false,\"mark_utilized\":false,\
     \"prefix\":\"10.1.0.0/16\",\"role\":null,\"status\":{\"label\":\"Active\",\"value\":\"active\"},\"vrf\":null},\
     {\"children\":0,\"depth\":0,\"description\":\"\",\"family\":4,\"id\":2,\"is_pool\":false,\"mark_utilized\":false,\
     \"prefix\":\"10.2.0.0/16\",\"role\":null,\"status\":{\"label\":\"Active\",\"value\":\"active\"},\"vrf\":null}]}";

/// The operator makes a prefix and reads it; then the reader is asked for one change, and for more than there are.
const ONE: &str =
    "POST /api/ipam/prefixes/ HTTP/1.1\r\nHost: ipam\r\nContent-Length: 24\r\n\r\n{\"prefix\":\"10.0.0.0/24\"}\
     GET /api/ipam/prefixes/1/ HTTP/1.1\r\nHost: ipam\r\n\r\n";

const ONE_ANSWERED: &str =
    "HTTP/1.1 201 Created\r\nContent-Type: application/json\r\nContent-Length: 188\r\nIpam-Place: 0\r\n\r\n\
     {\"children\":0,\"depth\":0,\"description\":\"\",\"family\":4,\"id\":1,\"is_pool\":false,\"mark_utilized\":false,\
     \"prefix\":\"10.0.0.0/24\",\"role\":null,\"status\":{\"label\":\"Active\",\"value\":\"active\"},\"vrf\":null}\
     HTTP/1.1 200 OK\r\nContent-Type: application/json\r\nContent-Length: 188\r\nIpam-Place: 1\r\n\r\n\
     {\"children\":0,\"depth\":0,\"description\":\"\",\"family\":4,\"id\":1,\"is_pool\":false,\"mark_utilized\":false,\
     \"prefix\":\"10.0.0.0/24\",\"role\":null,\"status\":{\"label\":\"Active\",\"value\":\"active\"},\"vrf\":null}";

const LEAST: &str = "GET /api/ipam/prefixes/?least=1 HTTP/1.1\r\nHost: ipam\r\n\r\n\
     GET /api/ipam/prefixes/?least=5 HTTP/1.1\r\nHost: ipam\r\n\r\n";

const LEAST_ANSWERED: &str =
    "HTTP/1.1 200 OK\r\nContent-Type: application/json\r\nContent-Length: 240\r\nIpam-Place: 1\r\n\r\n\
     {\"count\":1,\"next\":null,\"previous\":null,\"results\":[\
     {\"children\":0,\"depth\":0,\"description\":\"\",\"family\":4,\"id\":1,\"is_pool\":false,\"mark_utilized\":false,\
     \"prefix\":\"10.0.0.0/24\",\"role\":null,\"status\":{\"label\":\"Active\",\"value\":\"active\"},\"vrf\":null}]}\
     HTTP/1.1 503 Service Unavailable\r\nContent-Type: application/json\r\nContent-Length: 46\r\nIpam-Place: 1\r\n\r\n\
     {\"code\":\"behind\",\"detail\":\"published up to 1\"}";

/// What operator and reader tell each other, and how often one gave up.
#[derive(Drop)]
struct Marks {
    reader_came: AtomicU32,
    operator_done: AtomicU32,
    gave_up: AtomicU32,
}

impl Marks {
    fn new() -> Marks {
        Marks {
            reader_came: AtomicU32::new(0),
            operator_done: AtomicU32::new(0),
            gave_up: AtomicU32::new(0),
        }
    }

    /// Waits until the word is set, or for as many turns as may be.
    fn hold(&self, word: &AtomicU32) {
        for _ in 0..TURNS {
            if word.load(Ordering::SeqCst) > 0 {
                return;
            }
            yield_now();
        }
        self.gave_up.fetch_add(1, Ordering::SeqCst);
    }
}

/// Whose requests they are.
#[derive(Clone, Copy)]
enum Who {
    Operator,
    Reader,
}

/// Bytes whose reads hold: each of the operator's but the first one until the reader has come, and the reader's first one until the operator is
/// done. It is when all its bytes were read and it reads again, since its answers were written before.
#[derive(Drop)]
struct HeldSource<'a> {
    source: BytesSource,
    marks: &'a Marks,
    who: Who,
    has_read: bool,
}

impl<'a> HeldSource<'a> {
    /// Holds before a read.
    fn hold(&self) {
        match self.who {
            Who::Operator => if self.source.left().is_empty() {
                self.marks.operator_done.store(1, Ordering::SeqCst);
            } else if self.has_read {
                self.marks.hold(&self.marks.reader_came);
            },
            Who::Reader => if !self.has_read {
                self.marks.reader_came.store(1, Ordering::SeqCst);
                self.marks.hold(&self.marks.operator_done);
            },
        }
    }
}

impl<'a> Source for HeldSource<'a> {
    ghost use Rattle.std.specs.Prelude.{None};
    ghost use Rattle.ipam_edge.specs.Memory.{source_faults};

    ghost left = { λ s. None };

    ghost faults = { λ s. source_faults s.source };

    fn read(&mut self, into: &mut [u8]) -> Result<usize, Failed> {
        self.hold();
        self.has_read = true;
        self.source.read(into)
    }
}

/// A lane with one connection of the reader. A proof knows nothing of it.
#[derive(Drop)]
struct HeldLane<'a> {
    waits: Option<(HeldSource<'a>, BytesSink)>,
    answers: Option<BytesSink>,
    accepts: u32,
    faults: u64,
}

impl<'a> Lane for HeldLane<'a> {
    ghost use Rattle.std.specs.Prelude.{None};

    type In = HeldSource<'a>;

    type Out = BytesSink;

    ghost told = { λ l. None };

    ghost accepts = { λ l. l.accepts };

    ghost faults = { λ l. l.faults };

    fn accept(&mut self) -> Result<Option<(HeldSource<'a>, BytesSink)>, Failed> {
        if self.accepts == 0 {
            return Ok(None);
        }
        self.accepts -= 1;
        match self.waits.take() {
            Some(pair) => Ok(Some(pair)),
            None => {
                self.faults = self.faults.saturating_add(1);
                Err(Failed)
            }
        }
    }

    fn has_failed(&self) -> bool {
        self.faults > 0
    }

    fn finish(&mut self, source: HeldSource<'a>, sink: BytesSink) {
        drop(source);
        self.answers = Some(sink);
    }
}

/// A listener with that lane.
#[derive(Drop)]
struct HeldListener<'a> {
    waits: Option<HeldLane<'a>>,
    back: Vec<u32>,
    answers: Option<BytesSink>,
    place: Vec<u8>,
    bound: u32,
    lanes: u64,
    faults: u64,
    ghost room: { 1 ≤ vec_capacity back },
    ghost few: { lanes ≤ 1 },
    ghost fewer: { vec_len back ≤ lanes },
}

impl<'a> Listener for HeldListener<'a> {
    ghost use Rattle.std.proofs.Common.{rules};
    ghost use Rattle.ipam_listen.specs.Back.{read_within};
    ghost use Rattle.ipam_listen.specs.Tcp.{returned_door};

    type Door = HeldLane<'a>;

    ghost bound = { λ l. binding l.place.items l.bound };

    ghost lanes = { λ l. l.lanes };

    ghost returned = { λ l. map returned_door l.back.items };

    ghost faults = { λ l. l.faults };

    fn bind(&mut self, at: Vec<u8>, connections: u32) -> Result<(), Failed> {
        self.place = at;
        self.bound = connections;
        Ok(())
    }

    fn lane(&mut self) -> Result<HeldLane<'a>, Failed> {
        if self.lanes > 0 {
            self.faults = self.faults.saturating_add(1);
            return Err(Failed);
        }
        match self.waits.take() {
            Some(lane) => {
                self.lanes += 1;
                let mut lane = lane;
                lane.accepts = self.bound;
                Ok(lane)
            }
            None => {
                self.faults = self.faults.saturating_add(1);
                Err(Failed)
            }
        }
    }

    fn give_back(&mut self, lane: HeldLane<'a>) {
        if lane.faults > 0 {
            self.faults = self.faults.saturating_add(1);
        }
        self.back.push_reserved(lane.accepts);
        let HeldLane {
            waits,
            answers,
            accepts: _,
            faults: _,
        } = lane;
        drop(waits);
        self.answers = answers;
    }

    ghost no_more_back = { λ l. read_within returned_door l.back.items l.lanes (let fewer = l.fewer in Prim.search (rules, fewer)) };
}

/// What a run left: its status, what operator and reader were answered, and how often one gave up.
#[derive(Drop)]
struct Told {
    status: u8,
    output: Vec<u8>,
    answers: Option<BytesSink>,
    given_up: u32,
}

/// Requests whose reads hold, in pieces of this size.
fn held<'a>(
    alloc: Global,
    text: &str,
    piece: usize,
    who: Who,
    marks: &'a Marks,
) -> Result<HeldSource<'a>, AllocError> {
    let bytes = Vec::from_slice(alloc, text.as_bytes())?;
    Ok(HeldSource {
        source: BytesSource::new(bytes, Vec::new(alloc), piece.max(1)),
        marks,
        who,
        has_read: false,
    })
}

/// A listener whose one lane has the reader's connection.
fn listener_of<'a>(
    alloc: Global,
    reader: &str,
    marks: &'a Marks,
) -> Result<HeldListener<'a>, AllocError> {
    let source = held(alloc, reader, 4096, Who::Reader, marks)?;
    let sink = BytesSink::new(alloc, Vec::new(alloc), 4096, 4096)?;
    let back = Vec::with_capacity(alloc, 1)?;
    Ok(HeldListener {
        waits: Some(HeldLane {
            waits: Some((source, sink)),
            answers: None,
            accepts: 0,
            faults: 0,
        }),
        back,
        answers: None,
        place: Vec::new(alloc),
        bound: 0,
        lanes: 0,
        faults: 0,
    })
}

/// Runs the words over an operator's requests, of whose bytes a read gives so many, next to a reader's.
fn mirrored<R: Threads + Wait + Sync>(
    rt: &R,
    alloc: Global,
    operator: &str,
    piece: usize,
    reader: &str,
) -> Result<Told, AllocError> {
    let marks = Marks::new();
    let mut input = held(alloc, operator, piece, Who::Operator, &marks)?;
    let mut listener = listener_of(alloc, reader, &marks)?;
    let mut output = BytesSink::new(alloc, Vec::new(alloc), 4096, 4096)?;
    let mut errors = BytesSink::new(alloc, Vec::new(alloc), 4096, 4096)?;
    let mut opener = MemoryOpener::new(Vec::new(alloc), Vec::new(alloc));
    let status = run(
        rt,
        alloc,
        WORDS,
        &mut input,
        &mut output,
        &mut errors,
        &mut listener,
        &mut opener,
    );
    Ok(Told {
        status,
        output: output.into_bytes(),
        answers: listener.answers.take(),
        given_up: marks.gave_up.load(Ordering::SeqCst),
    })
}

/// What the reader was answered.
fn read_by(told: &Told) -> &str {
    match &told.answers {
        Some(sink) => str::from_utf8(sink.bytes()).unwrap_or(""),
        None => "",
    }
}

#[test]
fn readers_run_beside_the_operator(rt: HostRuntime) -> Result<(), Fail> {
    let told = mirrored(&rt, rt.alloc(), TWO, TWO.len() / 2, BOTH)?;
    assert!(rt;
        told.status == 0 && told.given_up == 0,
        "{} {}",
        told.status,
        told.given_up
    );
    assert_eq!(rt; read_by(&told), BOTH_ANSWERED);
    Ok(())
}

#[test]
fn a_reader_sees_what_was_answered(rt: HostRuntime) -> Result<(), Fail> {
    let told = mirrored(&rt, rt.alloc(), ONE, 4096, LEAST)?;
    assert!(rt;
        told.status == 0 && told.given_up == 0,
        "{} {}",
        told.status,
        told.given_up
    );
    assert!(rt; told.output.as_slice() == ONE_ANSWERED.as_bytes());
    assert_eq!(rt; read_by(&told), LEAST_ANSWERED);
    Ok(())
}
