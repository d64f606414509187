//! Connections over a socket of this process: how long a client has, by a clock that a test sets; what the socket is set to; and that the
//! last answer is received whole.

use ipam_edge::{Sink, Source};
use ipam_listen::{Lane, Listener, TcpDoor, TcpDoors};
use os::FromRawFd;
use std::alloc::{AllocError, Global};
use std::io;
use std::io::{Read, Write};
use std::marker::Sync;
use std::net::{Net, SocketAddr, TcpListener, TcpStream};
use std::os::fd::IntoRawFd;
use std::sync::atomic::{AtomicU64, Ordering};
use std::test::Fail;
use std::time::{Clock, Duration};

/// The network of a runtime, with a clock that stands still until a test sets it.
#[derive(Drop)]
struct Timed<'a, R> {
    rt: &'a R,
    millis: AtomicU64,
}

impl<'a, R> Timed<'a, R> {
    fn new(rt: &'a R) -> Timed<'a, R> {
        Timed {
            rt,
            millis: AtomicU64::new(0),
        }
    }

    /// So many milliseconds have gone by since the beginning.
    fn set(&self, millis: u64) {
        self.millis.store(millis, Ordering::SeqCst);
    }
}

impl<'a, R> Clock for Timed<'a, R> {
    fn monotonic(&self) -> io::Result<Duration> {
        Ok(Duration::from_millis(self.millis.load(Ordering::SeqCst)))
    }

    fn since_1970(&self) -> io::Result<Duration> {
        Ok(Duration::from_millis(self.millis.load(Ordering::SeqCst)))
    }
}

impl<'a, R: Net> Net for Timed<'a, R> {
    type Stream = R::Stream;

    type Listener = R::Listener;

    fn bind(&self, addr: SocketAddr) -> io::Result<R::Listener> {
        self.rt.bind(addr)
    }

    fn connect(&self, addr: SocketAddr) -> io::Result<R::Stream> {
        self.rt.connect(addr)
    }
}

/// A port of 127.0.0.1, and a lane of it whose clients have so long at first.
fn lane_of<R: Net<Listener = TcpListener, Stream = TcpStream> + Clock + Sync>(
    rt: &R,
    alloc: Global,
    base: Duration,
) -> Option<(u16, TcpDoor<'_, R>)> {
    let mut listener = TcpDoors::new(rt, alloc, base);
    let place = Vec::from_slice(alloc, b"127.0.0.1:0").ok()?;
    listener.bind(place, 100).ok()?;
    let port = listener.port()?;
    let lane = listener.lane().ok()?;
    Some((port, lane))
}

/// A number of a word. A word that is none fails as for lack of memory.
fn number(word: &str) -> Result<usize, AllocError> {
    word.parse::<usize>().map_err(|_| AllocError)
}

/// Sends so many bytes, 500 at most.
fn send(client: &mut TcpStream, count: usize) -> Result<(), AllocError> {
    let bytes = [b'x'; 500];
    let sent = bytes.get(..count).ok_or(AllocError)?;
    client.write_all(sent).map_err(|_| AllocError)
}

/// Does what a word of a case says, and notes of a read whether it gave bytes. Another word fails as for lack of memory.
fn step<R, So: Source, Si: Sink>(
    timed: &Timed<'_, R>,
    client: &mut TcpStream,
    source: &mut So,
    sink: &mut Si,
    word: &str,
    trace: &mut String,
) -> Result<(), AllocError> {
    if let Some(millis) = word.strip_prefix("t") {
        timed.set(number(millis)? as u64);
        return Ok(());
    }
    if let Some(count) = word.strip_prefix("s") {
        return send(client, number(count)?);
    }
    if word == "w" {
        return sink.write(b"answer").map(|_| ()).map_err(|_| AllocError);
    }
    if word == "r" {
        let mut room = [0; 512];
        let came = source.read(&mut room).is_ok_and(|n| n > 0);
        return trace.push(if came { '+' } else { '-' });
    }
    Err(AllocError)
}

/// What a connection's client sends and is answered, and when, by the words of a case: `t` sets the clock, in milliseconds, `s` sends so many
/// bytes, `r` reads on the other side, and `w` writes there. After the bar, for each read, whether it gave bytes. A client has 30 seconds for a
/// request, counted from the beginning of the connection or from the first write after the last read, and a second more for every 500 bytes.
const CASES: &str = "\
s1 r t29999 s1 r t30000 s1 r|++-
s499 r t30000 s1 r|+-
s500 r t30999 s1 r t31000 s1 r|++-
s1 r t29000 w t58999 s1 r t59000 s1 r|++-
s1 r t1000 w t2000 w t30999 s1 r t31000 s1 r|++-
s500 r w t29999 s1 r t30000 s1 r|++-
s1 r t29000 w t30000 s500 r t59999 s1 r t60000 s1 r|+++-
s1 r t29500 r|+-
";

/// The outcome of the reads of a case.
fn traced<R: Net<Listener = TcpListener, Stream = TcpStream> + Sync>(
    rt: &R,
    alloc: Global,
    case: &str,
) -> Option<String> {
    let timed = Timed::new(rt);
    let (port, mut lane) = lane_of(&timed, alloc, Duration::from_secs(30))?;
    let mut client = TcpStream::connect(rt, ("127.0.0.1", port)).ok()?;
    let (mut source, mut sink) = lane.accept().ok()??;
    let mut trace = String::new(alloc);
    for word in case.split('|').next()?.split(' ') {
        step(
            &timed,
            &mut client,
            &mut source,
            &mut sink,
            word,
            &mut trace,
        )
        .ok()?;
    }
    drop(client);
    lane.finish(source, sink);
    Some(trace)
}

#[test]
fn a_client_has_its_time(rt: HostRuntime) -> Result<(), Fail> {
    for case in CASES.lines() {
        let trace = traced(&rt, rt.alloc(), case).expect(&rt, "a connection");
        let wanted = case.split_once('|').expect(&rt, "a bar").1;
        assert!(rt; trace.as_str() == wanted, "{case}: {trace}");
    }
    Ok(())
}

/// The milliseconds of a time-out, or 0 if there is none.
fn millis_of(timeout: io::Result<Option<Duration>>) -> u128 {
    match timeout {
        Ok(Some(time)) => time.as_millis(),
        _ => 0,
    }
}

/// What a socket is set to, if its other end is this client: whether it sends at once, and how long a write and a read wait.
fn settings_of(alloc: Global, stream: &TcpStream, client: SocketAddr) -> Option<String> {
    if stream.peer_addr().ok()? != client {
        return None;
    }
    let at_once = stream.nodelay().ok()?;
    let write = millis_of(stream.write_timeout());
    let read = millis_of(stream.read_timeout());
    format!(in alloc; "nodelay {at_once}, write {write}, read {read}").ok()
}

/// The same of the socket under a descriptor, which stays open.
fn settings_at(alloc: Global, fd: u16, client: SocketAddr) -> Option<String> {
    let stream = unsafe { TcpStream::from_raw_fd(i32::from(fd)) };
    let settings = settings_of(alloc, &stream, client);
    let _number = stream.into_raw_fd();
    settings
}

/// What the socket of this process is set to whose other end is this client.
fn settings_to(alloc: Global, client: SocketAddr) -> Option<String> {
    for fd in 0..1024 {
        let settings = settings_at(alloc, fd, client);
        if settings.is_some() {
            return settings;
        }
    }
    None
}

/// What the socket of a connection is set to, after a read of its first byte.
fn settings<R: Net<Listener = TcpListener, Stream = TcpStream> + Sync>(
    rt: &R,
    alloc: Global,
) -> Option<String> {
    let timed = Timed::new(rt);
    let (port, mut lane) = lane_of(&timed, alloc, Duration::from_millis(30_200))?;
    let mut client = TcpStream::connect(rt, ("127.0.0.1", port)).ok()?;
    let (mut source, sink) = lane.accept().ok()??;
    client.write_all(b"x").ok()?;
    let mut room = [0; 16];
    source.read(&mut room).ok()?;
    let settings = settings_to(alloc, client.local_addr().ok()?);
    drop(client);
    lane.finish(source, sink);
    settings
}

#[test]
fn a_connection_sends_at_once_and_waits_no_longer_than_it_may(rt: HostRuntime) {
    let settings = settings(&rt, rt.alloc()).expect(&rt, "a socket");
    assert_eq!(rt; settings.as_str(), "nodelay true, write 30200, read 31000");
}

/// What a client reads to the end that sent bytes which nobody reads, and gets an answer.
fn answer_of<R: Net<Listener = TcpListener, Stream = TcpStream> + Clock + Sync>(
    rt: &R,
    alloc: Global,
    port: u16,
    lane: &mut TcpDoor<'_, R>,
) -> Option<String> {
    let mut client = TcpStream::connect(rt, ("127.0.0.1", port)).ok()?;
    client.write(&[b'x'; 9000]).ok()?;
    let (source, mut sink) = lane.accept().ok()??;
    let _ = sink.write(b"too large");
    lane.finish(source, sink);
    let mut text = String::new(alloc);
    client.read_to_string(&mut text).ok()?;
    Some(text)
}

#[test]
fn the_last_answer_comes_whole(rt: HostRuntime) {
    let base = Duration::from_millis(200);
    let (port, mut lane) = lane_of(&rt, rt.alloc(), base).expect(&rt, "a socket");
    let answer = answer_of(&rt, rt.alloc(), port, &mut lane).expect(&rt, "an answer");
    assert_eq!(rt; answer.as_str(), "too large");
}
