//! Lanes in memory, and where a listener over TCP listens.

ghost use Rattle.std.specs.Prelude.{◌≡◌, [], IfOk};
ghost use Rattle.ipam_listen.specs.ListLanes.{lane_told};

use ipam_edge::{BytesSink, BytesSource, Failed};
use ipam_listen::{Lane, ListLane, ListListener, Listener, TcpDoors};
use std::alloc::{AllocError, Global};
use std::marker::Sync;
use std::net::{Net, TcpListener, TcpStream};
use std::test::Fail;
use std::time::{Clock, Duration};

/// What the next accept of a lane answers, a connection being taken back at once: `c` for a connection, `f` for a failure, `n` for none.
fn accept_one<A: Lane>(lane: &mut A) -> char {
    match lane.accept() {
        Ok(Some(pair)) => {
            let (source, sink) = pair;
            lane.finish(source, sink);
            'c'
        }
        Ok(None) => 'n',
        Err(Failed) => 'f',
    }
}

/// A connection with three bytes to read.
fn pair(alloc: Global) -> Result<(BytesSource, BytesSink), AllocError> {
    let bytes = Vec::from_slice(alloc, b"abc")?;
    let source = BytesSource::new(bytes, Vec::new(alloc), 1);
    let sink = BytesSink::new(alloc, Vec::new(alloc), 1, 8)?;
    Ok((source, sink))
}

/// A lane over two connections, whose accepts with these numbers fail.
fn lane_of_two(alloc: Global, fails: &[u32]) -> Result<ListLane, AllocError>
    ensures { IfOk result (λ l. lane_told l ≡ []) }
{
    let mut pairs = Vec::new(alloc);
    pairs.push(pair(alloc)?)?;
    pairs.push(pair(alloc)?)?;
    ListLane::new(alloc, pairs, Vec::from_slice(alloc, fails)?)
}

/// What a listener's one lane answers that is bound with so many connections, and `!` if the listener counts a fault once the lane
/// was given back.
fn trace_of(
    alloc: Global,
    bound: u32,
    fails: &[u32],
    trace: &mut String,
) -> Result<(), AllocError> {
    let lane = lane_of_two(alloc, fails)?;
    let mut lanes = Vec::new(alloc);
    lanes.push(lane)?;
    let mut listener = ListListener::new(alloc, lanes)?;
    if listener
        .bind(Vec::from_slice(alloc, b"here")?, bound)
        .is_ok()
    {
        if let Ok(mut lane) = listener.lane() {
            for _ in 0..5 {
                trace.push(accept_one(&mut lane))?;
            }
            let failed = lane.faults() > 0;
            listener.give_back(lane);
            trace.push(if failed { '!' } else { ' ' })?;
        }
    }
    Ok(())
}

#[test]
fn lanes_fail_where_they_are_told_to(rt: HostRuntime) -> Result<(), Fail> {
    let mut trace = String::new(rt.alloc());
    trace_of(rt.alloc(), 2, &[], &mut trace)?;
    trace_of(rt.alloc(), 3, &[], &mut trace)?;
    trace_of(rt.alloc(), 4, &[0, 2], &mut trace)?;
    trace_of(rt.alloc(), 0, &[0], &mut trace)?;
    assert_eq!(rt; trace.as_str(), "ccnnn ccfnn!fcfcn!nnnnn ");
    Ok(())
}

/// Whether somebody listens at a port of a host.
fn listens<R: Net<Listener = TcpListener, Stream = TcpStream>>(
    rt: &R,
    host: &str,
    port: u16,
) -> bool {
    TcpStream::connect(rt, (host, port)).is_ok()
}

/// A listener that is bound to a place.
fn bound_to<'a, R: Net<Listener = TcpListener, Stream = TcpStream> + Clock + Sync>(
    rt: &'a R,
    alloc: Global,
    place: &str,
) -> Option<TcpDoors<'a, R>> {
    let mut listener = TcpDoors::new(rt, alloc, Duration::from_millis(200));
    let place = Vec::from_slice(alloc, place.as_bytes()).ok()?;
    listener.bind(place, 1).ok()?;
    Some(listener)
}

/// Two listeners at one port of two addresses: the first one's port is the system's choice, and the second one is bound to just that.
fn at_one_port<R: Net<Listener = TcpListener, Stream = TcpStream> + Clock + Sync>(
    rt: &R,
    alloc: Global,
) -> Option<(TcpDoors<'_, R>, TcpDoors<'_, R>, u16)> {
    let first = bound_to(rt, alloc, "127.0.0.1:0")?;
    let port = first.port()?;
    let place = format!(in alloc; "127.0.0.2:{port}").ok()?;
    let second = bound_to(rt, alloc, place.as_str())?;
    Some((first, second, port))
}

#[test]
fn a_listener_is_at_its_place_alone(rt: HostRuntime) -> Result<(), Fail> {
    let (first, second, port) = at_one_port(&rt, rt.alloc()).expect(&rt, "two listeners");
    assert_eq!(rt; (first.port(), second.port()), (Some(port), Some(port)));
    assert!(rt; listens(&rt, "127.0.0.1", port));
    assert!(rt; listens(&rt, "127.0.0.2", port));
    assert!(rt; !listens(&rt, "127.0.0.3", port), "another address");
    let taken = format!(in rt.alloc(); "127.0.0.2:{port}")?;
    assert!(rt; !binds(&rt, rt.alloc(), taken.as_str()), "taken");
    Ok(())
}

/// Whether a listener can be bound to a place.
fn binds<R: Net<Listener = TcpListener, Stream = TcpStream> + Clock + Sync>(
    rt: &R,
    alloc: Global,
    place: &str,
) -> bool {
    bound_to(rt, alloc, place).is_some()
}

#[test]
fn a_text_that_is_no_place_is_not_bound(rt: HostRuntime) {
    for place in ["", "nowhere", "127.0.0.1", "127.0.0.1:70000", "127.0.0.1:x"] {
        assert!(rt; !binds(&rt, rt.alloc(), place), "{place}");
    }
    assert!(rt; binds(&rt, rt.alloc(), "127.0.0.1:0"));
}
