//! Clients of a real port: one that is answered, and two that are slow, whose connections end, and the worker serves the next one.
ghost use Rattle.std.specs.Prelude.{◌≡◌, [], IfSome};

use crate::registers::locked;
use crate::serving::serve_alone;
use ipam_listen::{Gate, Lane, Listener, OpenGate, TcpDoor, TcpDoors};
use std::alloc::{AllocError, Global};
use std::io::{Read, Write};
use std::marker::{Send, Sync};
use std::net::{Net, Shutdown, TcpListener, TcpStream};
use std::sync::Wait;
use std::sync::atomic::{AtomicU32, Ordering};
use std::test::Fail;
use std::thread::{Threads, join};
use std::time::{Clock, Duration};

/// A request as a usual client sends it.
const ASKED: &[u8] =
    b"GET /api/ipam/prefixes/?limit=2 HTTP/1.1\r\nHost: 127.0.0.1:8080\r\nUser-Agent: curl/8.5.0\r\nAccept: */*\r\nAuthorization: Token 0123\r\n\r\n";

/// Its answer over a register without rows.
const ANSWER: &str =
    "HTTP/1.1 200 OK\r\nContent-Type: application/json\r\nContent-Length: 52\r\nIpam-Place: 0\r\n\r\n{\"count\":0,\"next\":null,\"previous\":null,\"results\":[]}";

/// How long a client may be silent at first, in milliseconds.
const BASE: u64 = 200;

/// How long the slow client waits after each byte, in milliseconds.
const PAUSE: u64 = 50;

/// Serves a lane over its own register, past a gate.
fn serve_new<R: Threads + Wait + Sync, A: Lane + Send + Drop, G: Gate + Sync>(
    rt: &R,
    alloc: Global,
    lane: A,
    gate: &G,
) -> Result<(), AllocError>
    requires { IfSome (A.told lane) (λ connections. connections ≡ []) }
{
    let (shared, seat) = locked(alloc)?;
    let served = serve_alone(rt, alloc, &shared, seat, lane, gate);
    drop(shared);
    served
}

/// A port, and a lane of it for so many connections.
fn port_of<R: Net<Listener = TcpListener, Stream = TcpStream> + Clock + Sync>(
    rt: &R,
    alloc: Global,
    connections: u32,
) -> Option<(u16, TcpDoor<'_, R>)> {
    let mut listener = TcpDoors::new(rt, alloc, Duration::from_millis(BASE));
    let place = Vec::from_slice(alloc, b"127.0.0.1:0").ok()?;
    listener.bind(place, connections).ok()?;
    let port = listener.port()?;
    let lane = listener.lane().ok()?;
    Some((port, lane))
}

/// A client of a port, which sends this.
fn client_of<R: Net<Listener = TcpListener, Stream = TcpStream>>(
    rt: &R,
    port: u16,
    asked: &[u8],
) -> Option<TcpStream> {
    let mut client = TcpStream::connect(rt, ("127.0.0.1", port)).ok()?;
    client.write_all(asked).ok()?;
    Some(client)
}

/// A client that sends a request, and ends its side.
fn asking<R: Net<Listener = TcpListener, Stream = TcpStream>>(
    rt: &R,
    port: u16,
) -> Option<TcpStream> {
    let client = client_of(rt, port, ASKED)?;
    client.shutdown(Shutdown::Write).ok()?;
    Some(client)
}

/// All that a client gets.
fn answer_to(alloc: Global, client: TcpStream) -> Option<String> {
    let mut client = client;
    let mut answer = String::new(alloc);
    client.read_to_string(&mut answer).ok()?;
    Some(answer)
}

/// What a client of a port gets, which one worker serves.
fn answer_over<R: Threads + Wait + Net<Listener = TcpListener, Stream = TcpStream> + Clock + Sync>(
    rt: &R,
    alloc: Global,
) -> Option<String> {
    let (port, lane) = port_of(rt, alloc, 1)?;
    let client = asking(rt, port)?;
    serve_new(rt, alloc, lane, &OpenGate).ok()?;
    answer_to(alloc, client)
}

#[test]
fn a_client_of_a_port_is_answered(rt: HostRuntime) -> Result<(), Fail> {
    let answer = answer_over(&rt, rt.alloc()).expect(&rt, "a client");
    assert_eq!(rt; answer.as_str(), ANSWER);
    Ok(())
}

/// Sends a byte and waits a moment for an answer: whether the connection is still open.
fn sends_one(client: &TcpStream) -> bool {
    let mut client = client;
    let mut room = [0; 16];
    client.write(b"x").is_ok() && !client.read(&mut room).is_ok_and(|n| n == 0)
}

/// Whether a client can be seen to the end that sends one byte after another, with a pause after each, for as long as its connection is open.
fn sends_to_the_end(client: &TcpStream) -> bool {
    let pause = Duration::from_millis(PAUSE);
    if client.set_read_timeout(Some(pause)).is_err() {
        return false;
    }
    for _ in 0..u64::MAX {
        if !sends_one(client) {
            return true;
        }
    }
    false
}

/// Serves a lane while the slow client sends. `None` means that one of the two did not reach its end.
fn serve_slow<R: Threads + Wait + Sync, A: Lane + Send + Drop>(
    rt: &R,
    alloc: Global,
    lane: A,
    client: &TcpStream,
) -> Option<()>
    requires { IfSome (A.told lane) (λ connections. connections ≡ []) }
{
    let worker = move ||
        requires { IfSome (A.told lane) (λ connections. connections ≡ []) }
    { serve_new(rt, alloc, lane, &OpenGate) };
    let (served, has_sent) = join(rt, worker, || sends_to_the_end(client));
    served.ok()?;
    has_sent.then_some(())
}

/// What the last of three clients of one worker gets: the first one sends half a request and waits, and the second one sends a byte at a time
/// for as long as its connection is open. However long these two take, the third one is answered after them.
fn answer_behind_slow_clients<
    R: Threads + Wait + Net<Listener = TcpListener, Stream = TcpStream> + Clock + Sync,
>(rt: &R, alloc: Global) -> Option<String> {
    let (port, lane) = port_of(rt, alloc, 3)?;
    let silent = client_of(rt, port, &ASKED[..20])?;
    let slow = client_of(rt, port, b"x")?;
    let next = asking(rt, port)?;
    serve_slow(rt, alloc, lane, &slow)?;
    drop(silent);
    answer_to(alloc, next)
}

#[test]
fn slow_clients_hold_no_worker(rt: HostRuntime) -> Result<(), Fail> {
    let answer = answer_behind_slow_clients(&rt, rt.alloc()).expect(&rt, "clients");
    assert_eq!(rt; answer.as_str(), ANSWER);
    Ok(())
}

/// A gate that looks whether a client has an answer, before its session and after it, and counts how often it had one.
struct Looks<'a> {
    client: &'a TcpStream,
    before: AtomicU32,
    after: AtomicU32,
}

impl<'a> Looks<'a> {
    /// Counts an answer, if there is one within a moment.
    fn look(&self, count: &AtomicU32) {
        let mut room = [0; 1];
        if self.client.peek(&mut room).is_ok_and(|n| n > 0) {
            count.fetch_add(1, Ordering::SeqCst);
        }
    }
}

impl<'a> Gate for Looks<'a> {
    fn before(&self, who: u32, nth: u32) {
        let _ = (who, nth);
        self.look(&self.before);
    }

    fn after(&self, who: u32, nth: u32) {
        let _ = (who, nth);
        self.look(&self.after);
    }
}

/// How often a gate found an answer before the session of a client, and after it.
fn looked<R: Threads + Wait + Net<Listener = TcpListener, Stream = TcpStream> + Clock + Sync>(
    rt: &R,
    alloc: Global,
) -> Option<(u32, u32)> {
    let (port, lane) = port_of(rt, alloc, 1)?;
    let client = asking(rt, port)?;
    client
        .set_read_timeout(Some(Duration::from_millis(PAUSE)))
        .ok()?;
    let gate = Looks {
        client: &client,
        before: AtomicU32::new(0),
        after: AtomicU32::new(0),
    };
    let served = serve_new(rt, alloc, lane, &gate);
    let Looks {
        client: _,
        before,
        after,
    } = gate;
    served.ok()?;
    Some((before.load(Ordering::SeqCst), after.load(Ordering::SeqCst)))
}

#[test]
fn a_gate_is_passed_before_the_session_and_behind_it(rt: HostRuntime) {
    let found = looked(&rt, rt.alloc()).expect(&rt, "a client");
    assert_eq!(rt; found, (0, 1));
}
