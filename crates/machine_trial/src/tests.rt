ghost use Rattle.std.specs.Prelude.{◌≡◌, [], IfOk};
ghost use Rattle.ipam_listen.specs.ListLanes.{lane_told};

use crate::{Board, TallyService, serve_all};
use history_lock::Shared;
use http_lanes::Listening;
use http_session::SessionEnd;
use ipam_edge::{BytesSink, BytesSource};
use ipam_listen::{ListLane, ListListener, Listener};
use lock_trial::Tally;
use machine_session::{NoFollower, serve_own, serve_session};
use std::alloc::{AllocError, Global};
use std::test::Fail;

/// A request that adds so much.
const ADD_TWO: &str = "POST / HTTP/1.1\r\nContent-Length: 1\r\n\r\n\u{2}";

const ADD_UNLUCKY: &str = "POST / HTTP/1.1\r\nContent-Length: 1\r\n\r\n\u{d}";

const ASK: &str = "GET / HTTP/1.1\r\n\r\n";

const NONE: &str = "PUT / HTTP/1.1\r\n\r\n";

/// Both ends of a connection whose client sends these requests.
fn ends(alloc: Global, requests: &[&str]) -> Result<(BytesSource, BytesSink), AllocError> {
    let mut bytes = Vec::new(alloc);
    for request in requests {
        bytes.extend_from_slice(request.as_bytes())?;
    }
    Ok((
        BytesSource::new(bytes, Vec::new(alloc), 7),
        BytesSink::new(alloc, Vec::new(alloc), 4096, 100_000)?,
    ))
}

#[test]
fn a_tally_of_its_own_answers_in_turn(rt: HostRuntime) -> Result<(), Fail> {
    let (mut source, mut sink) = ends(rt.alloc(), &[ADD_TWO, ADD_UNLUCKY, ASK, NONE])?;
    let tally = Tally::new(rt.alloc(), 13);
    let (tally, NoFollower, end) = serve_own::<
        Tally,
        TallyService,
        NoFollower,
        BytesSource,
        BytesSink,
    >(rt.alloc(), tally, NoFollower, &mut source, &mut sink);
    assert_eq!(rt; end, SessionEnd::Closed(4));
    assert_eq!(rt; (tally.value(), tally.faults()), (2, 1));
    assert_eq!(rt;
        sink.into_bytes().as_slice(),
        b"HTTP/1.1 200 OK\r\nContent-Type: text/plain\r\nContent-Length: 1\r\nPlace: 0\r\n\r\n2\
          HTTP/1.1 503 Service Unavailable\r\nContent-Type: text/plain\r\nContent-Length: 6\r\nPlace: 1\r\n\r\nfailed\
          HTTP/1.1 200 OK\r\nContent-Type: text/plain\r\nContent-Length: 1\r\nPlace: 1\r\n\r\n2\
          HTTP/1.1 400 Bad Request\r\nContent-Type: text/plain\r\nContent-Length: 7\r\n\r\nno call"
            .as_slice()
    );
    Ok(())
}

#[test]
fn an_answer_is_lost_where_what_follows_has_no_room(rt: HostRuntime) -> Result<(), Fail> {
    let (mut source, mut sink) = ends(rt.alloc(), &[ADD_TWO, ASK, ADD_TWO, ASK])?;
    let tally = Tally::new(rt.alloc(), 13);
    let board = Board {
        sum: 0,
        up: true,
        room: 1,
    };
    let (tally, board, end) = serve_own::<Tally, TallyService, Board, BytesSource, BytesSink>(
        rt.alloc(),
        tally,
        board,
        &mut source,
        &mut sink,
    );
    assert_eq!(rt; end, SessionEnd::Memory);
    assert_eq!(rt; tally.value(), 4);
    assert_eq!(rt; (board.sum, board.up), (2, false));
    Ok(())
}

/// A lane with two connections, whose clients add three times and ask once.
fn lane_of(alloc: Global) -> Result<ListLane, AllocError>
    ensures { IfOk result (λ l. lane_told l ≡ []) }
{
    let mut pairs = Vec::new(alloc);
    pairs.push(ends(alloc, &[ADD_TWO, ADD_TWO])?)?;
    pairs.push(ends(alloc, &[ADD_TWO, ASK])?)?;
    ListLane::new(alloc, pairs, Vec::new(alloc))
}

/// A listener with two such lanes.
fn listener_of(alloc: Global) -> Result<ListListener, AllocError> {
    let mut lanes = Vec::new(alloc);
    lanes.push(lane_of(alloc)?)?;
    lanes.push(lane_of(alloc)?)?;
    ListListener::new(alloc, lanes)
}

#[test]
fn workers_share_one_tally(rt: HostRuntime) -> Result<(), Fail> {
    let mut listener = listener_of(rt.alloc())?;
    let bound = listener.bind(Vec::new(rt.alloc()), 3);
    assert!(rt; bound.is_ok());
    let lanes = Vec::with_capacity(rt.alloc(), 3)?;
    let hired = Vec::with_capacity(rt.alloc(), 3)?;
    match Shared::new(rt.alloc(), Tally::new(rt.alloc(), 13)) {
        Ok((shared, seat)) => {
            let (tally, listening) = serve_all(
                &rt,
                rt.alloc(),
                shared,
                seat,
                3,
                lanes,
                hired,
                &mut listener,
            );
            assert_eq!(rt; (tally.value(), tally.log().len()), (12, 6));
            assert!(rt; matches!(listening, Listening::Broken));
            assert_eq!(rt; listener.returned().len(), 2);
        }
        Err(tally) => {
            drop(tally);
            return Err(AllocError.into());
        }
    }
    Ok(())
}
