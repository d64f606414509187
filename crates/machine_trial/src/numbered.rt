//! A service that numbers the requests that a table reads: a worker reads all of its requests by one table.
ghost use Rattle.std.specs.Prelude.{◌≡◌, [], IfOk};
ghost use Rattle.ipam_listen.specs.ListLanes.{lane_told};

use crate::service::{answer_with, told};
use history_lock::Shared;
use http::StatusCode;
use http_session::{Fault, HttpRequest, Reply as Answer};
use ipam_edge::{BytesSink, BytesSource};
use ipam_listen::{ListLane, OpenGate};
use itoa::Buffer;
use lock_trial::{Call, Reply, Tally};
use machine_session::{Service, Wanted};
use machine_workers::{Worker, work};
use std::alloc::{AllocError, Global};
use std::str;
use std::sync::Wait;
use std::sync::atomic::{AtomicU32, Ordering};
use std::test::Fail;

/// Two requests of a connection.
const ASKED: &str = "GET / HTTP/1.1\r\n\r\nGET / HTTP/1.1\r\n\r\n";

/// The answers of two such connections, whose requests one table reads.
const ANSWERED: &str = "\
HTTP/1.1 200 OK\r\nContent-Type: text/plain\r\nContent-Length: 1\r\n\r\n0\
HTTP/1.1 200 OK\r\nContent-Type: text/plain\r\nContent-Length: 1\r\n\r\n1\
HTTP/1.1 200 OK\r\nContent-Type: text/plain\r\nContent-Length: 1\r\n\r\n2\
HTTP/1.1 200 OK\r\nContent-Type: text/plain\r\nContent-Length: 1\r\n\r\n3";

/// The service: its answer is how many requests the table read before.
struct Numbered;

impl Service<Tally> for Numbered {
    ghost use Rattle.machine_trial.specs.Tallies.{reply_answer};

    type Table = AtomicU32;

    type Along = ();

    ghost Shown = { Unit {0} };

    ghost Refused = { Unit {0} };

    ghost asks = { λ request asked. Unit {0} };

    ghost tells = { λ call reply shown place. reply_answer reply place };

    ghost refuses = { λ request why answer. Unit {0} };

    ghost misread = { λ fault answer. Unit {0} };

    ghost shows = { λ along call shown. Unit {0} };

    fn table(alloc: Global) -> Result<AtomicU32, AllocError> {
        let _ = alloc;
        Ok(AtomicU32::new(0))
    }

    fn read(
        alloc: Global,
        table: &AtomicU32,
        request: &HttpRequest,
    ) -> Result<Wanted<Call, ()>, AllocError> {
        let _ = alloc;
        let _ = request;
        let number = table.fetch_add(1, Ordering::SeqCst);
        let mut room = Buffer::new();
        let text = room.format(number);
        Ok(Wanted::Refused(answer_with(StatusCode::OK, None, text.as_bytes())))
    }

    fn write(alloc: Global, reply: Reply, along: (), place: u64) -> Result<Answer, AllocError> {
        let _ = alloc;
        let () = along;
        Ok(told(reply, place))
    }

    fn refuse(fault: Fault) -> Answer {
        let _ = fault;
        answer_with(StatusCode::BAD_REQUEST, None, b"bad request")
    }

    fn close(table: AtomicU32) {
        drop(table);
    }
}

/// Both ends of a connection with two requests.
fn ends(alloc: Global) -> Result<(BytesSource, BytesSink), AllocError> {
    let bytes = Vec::from_slice(alloc, ASKED.as_bytes())?;
    Ok((
        BytesSource::new(bytes, Vec::new(alloc), 4096),
        BytesSink::new(alloc, Vec::new(alloc), 4096, 4096)?,
    ))
}

/// A lane with two such connections.
fn lane_of(alloc: Global) -> Result<ListLane, AllocError>
    ensures { IfOk result (λ l. lane_told l ≡ []) }
{
    let mut pairs = Vec::new(alloc);
    pairs.push(ends(alloc)?)?;
    pairs.push(ends(alloc)?)?;
    ListLane::new(alloc, pairs, Vec::new(alloc))
}

/// Puts what was written to the connections of a lane at the end of a text.
fn tell(lane: &ListLane, told: &mut String) -> Result<(), AllocError> {
    for handed in lane.handed() {
        if let Some(pair) = handed.finished() {
            told.push_str(str::from_utf8(pair.1.bytes()).unwrap_or(""))?;
        }
    }
    Ok(())
}

/// What a worker answers to them.
fn answered_by_one<R: Wait>(rt: &R, alloc: Global) -> Result<String, AllocError> {
    let lane = lane_of(alloc)?;
    let mut text = String::new(alloc);
    match Shared::new(alloc, Tally::new(alloc, 13)) {
        Ok((shared, seat)) => {
            let mut worker = Worker {
                seat: Some(seat),
                lane,
            };
            work::<R, Tally, Numbered, ListLane, OpenGate>(
                rt,
                alloc,
                &shared,
                &mut worker,
                &OpenGate,
            );
            tell(&worker.lane, &mut text)?;
            Ok(text)
        }
        Err(tally) => {
            drop(tally);
            Err(AllocError)
        }
    }
}

#[test]
fn one_table_reads_all_requests_of_a_worker(rt: HostRuntime) -> Result<(), Fail> {
    let told = answered_by_one(&rt, rt.alloc())?;
    assert_eq!(rt; told.as_str(), ANSWERED);
    Ok(())
}
