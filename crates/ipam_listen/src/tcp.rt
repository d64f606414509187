//! Connections over TCP. Nothing is known of their content; they keep their counts.
ghost use Rattle.std.specs.Prelude.{◌≡◌, ◌<◌, ◌≤◌, ◌+◌, ◌^◌, IfOk, IfSome, MatchResult, None, Some, [], map, length, vec_len, vec_capacity};
ghost use Rattle.std.specs.Io.KnownBytes.{ReadConsumes};
ghost use Rattle.std.specs.Duration.{as_nanos};
ghost use Rattle.ipam_edge.specs.Faults.{HasCause};
ghost use Rattle.ipam_edge.specs.Streams.{sink_stream_faults};
ghost use Rattle.ipam_listen.specs.Connections.{binding};
ghost use Rattle.ipam_listen.specs.Tcp.{Begins, CountsOn, IsLeft, RequestClock, WaitsInTime, begun, request_clock, returned_door};

use crate::lane::Lane;
use crate::listener::Listener;
use crate::mark::{AnswerMark, Noted};
use crate::patience::{patience_left, seconds_past};
use ipam_edge::{Failed, Sink, Source, StdSink};
use std::alloc::Global;
use std::io::Read;
use std::marker::Sync;
use std::net::{Net, OpenStream, Shutdown, TcpListener, TcpStream};
use std::time::{Clock, Duration, Instant};
use std::{io, str, thread};

/// How many bytes are read at most from a client that gets no further answer.
const LAST_BYTES: usize = 65_536;

/// For how many seconds they are read at most.
const LAST_SECONDS: u64 = 1;

/// How many milliseconds a lane waits after an accept that failed, so that a socket that fails for ever costs no processor.
const MOMENT: u64 = 20;

/// What a client sends. It has a base time for each request to be received whole, counted from the beginning of the connection or from the first
/// write after the last read, and a second more for every 500 bytes of the request.
#[derive(Drop)]
pub struct TcpIn<'a, R, S> {
    clock: &'a R,
    stream: S,
    began: Instant,
    answered: AnswerMark,
    base: Duration,
    /// When this request began, from the beginning of the connection.
    since: Duration,
    /// How many bytes of it were read.
    bytes: u64,
    /// For how many seconds a read waits at most, once that is set.
    timeout: Option<u64>,
    faults: u64,
}

impl<'a, R: Clock, S: Read + OpenStream> TcpIn<'a, R, S> {
    /// If the client was answered since the last read, its next request begins as it was.
    fn begin_request(&mut self, answered: Option<Duration>)
        ensures { self.new ≡ begun answered self.old }
    {
        if let Some(at) = answered {
            self.since = at;
            self.bytes = 0;
        }
    }

    /// How long the client has left for this request at a time since the connection began, if it has any time left.
    fn left_at(&self, now: Duration) -> Option<Duration>
        ensures { IsLeft (as_nanos self.now.base) (request_clock self.now) (as_nanos now) result }
    {
        patience_left(self.base, self.bytes, now.saturating_sub(self.since))
    }

    /// Sets how long reads wait at most, unless just that is set.
    fn set_timeout(&mut self, seconds: u64) -> io::Result<()>
        ensures only { self.new ≡ record self.old { timeout = self.new.timeout } }
        ensures is_set { IfOk result (λ _. self.new.timeout ≡ Some seconds) }
    {
        if let Some(set) = self.timeout {
            if set == seconds {
                return Ok(());
            }
        }
        let wait = Duration::from_secs(seconds);
        self.stream.set_read_timeout(Some(wait))?;
        self.timeout = Some(seconds);
        Ok(())
    }

    /// Reads, and waits for as long as the client has left, or for a second more at most.
    fn read_in_time(&mut self, into: &mut [u8]) -> io::Result<usize>
        ensures most { IfOk result (λ n. n ≤ length into.new) }
        ensures took { ReadConsumes (S.remaining self.old.stream) (S.remaining self.new.stream) result into.new }
        ensures kept { (request_clock self.new ≡ request_clock self.old) × (self.new.bytes ≡ self.old.bytes) × (self.new.base ≡ self.old.base) × (self.new.faults ≡ self.old.faults) }
        ensures in_time { IfOk result (λ _. WaitsInTime (as_nanos self.old.base) (request_clock self.old) self.new.timeout) }
    {
        let now = self.began.elapsed(self.clock)?;
        let Some(left) = self.left_at(now) else {
            return Err(io::Error::from(io::ErrorKind::TimedOut));
        };
        self.set_timeout(seconds_past(left))?;
        self.stream.read(into)
    }
}

impl<'a, R: Clock> TcpIn<'a, R, TcpStream> {
    /// Says that no answer follows, and reads on for a while: a client that still sends would lose the answers if the connection
    /// were cut while its bytes are unread.
    fn let_go(&self) -> io::Result<()> {
        self.stream.shutdown(Shutdown::Write)?;
        let since = Instant::now(self.clock)?;
        let mut room = [0; 4096];
        let mut left = LAST_BYTES;
        while left > 0 {
            let taken = since.elapsed(self.clock)?;
            let Some(time) = patience_left(Duration::from_secs(LAST_SECONDS), 0, taken) else {
                break;
            };
            self.stream.set_read_timeout(Some(time))?;
            let most = left.min(room.len());
            let n = (&self.stream).read(&mut room[..most])?;
            if n == 0 {
                break;
            }
            left -= n;
        }
        Ok(())
    }
}

impl<'a, R: Clock, S: Read + OpenStream> Source for TcpIn<'a, R, S> {
    ghost left = { λ s. S.remaining s.stream };

    ghost faults = { λ s. s.faults };

    fn read(&mut self, into: &mut [u8]) -> Result<usize, Failed>
        ensures most { IfOk result (λ n. n ≤ length into.new) }

        // It gives what the stream gave.
        ensures took { ReadConsumes (S.remaining self.old.stream) (S.remaining self.new.stream) result into.new }
        ensures step { Unit {0} }
        ensures cause { HasCause self.old.faults self.new.faults result }

        // The bytes of the request grow by as many as it gives; if the client was answered since the last read they are counted from 0.
        ensures counted { MatchResult result (CountsOn (request_clock self.old) (request_clock self.new)) (λ _. Begins (request_clock self.old) (request_clock self.new)) }

        // It waits for what this request has left, or for a second more at most.
        ensures in_time { IfOk result (λ n. (from : RequestClock) × Begins (request_clock self.old) from × WaitsInTime (as_nanos self.old.base) from self.new.timeout) }
    {
        let answered = self.answered.take();
        self.begin_request(answered);
        match self.read_in_time(into) {
            Ok(n) => {
                self.bytes = self.bytes.saturating_add(n as u64);
                Ok(n)
            }
            Err(_) => {
                self.faults = self.faults.saturating_add(1);
                Err(Failed)
            }
        }
    }
}

/// What a client is answered. The first write after the last read is noted for the end that reads.
#[derive(Drop)]
pub struct TcpOut<'a, R> {
    clock: &'a R,
    sink: StdSink<TcpStream>,
    began: Instant,
    answered: AnswerMark,
}

impl<'a, R: Clock> TcpOut<'a, R> {
    /// Notes when the client was answered, unless that is noted since the last read. If the clock fails nothing is noted: the next read
    /// meets the same clock.
    fn note(&self) -> io::Result<Noted> {
        if let Some(noted) = self.answered.noted() {
            return Ok(noted);
        }
        let at = self.began.elapsed(self.clock)?;
        Ok(self.answered.set(at))
    }

    /// Writes to a client of whom it is noted that it is answered, or whose clock failed: by its type no write is before that.
    fn send(&mut self, _noted: io::Result<Noted>, from: &[u8]) -> Result<usize, Failed>
        ensures most { IfOk result (λ n. n ≤ length from.now) }
        ensures some { IfOk result (λ n. 0 < length from.now → 0 < n) }
        ensures cause { HasCause (sink_stream_faults self.old.sink) (sink_stream_faults self.new.sink) result }
    {
        self.sink.write(from)
    }
}

impl<'a, R: Clock> Sink for TcpOut<'a, R> {
    ghost written = { λ s. None };

    ghost faults = { λ s. sink_stream_faults s.sink };

    fn write(&mut self, from: &[u8]) -> Result<usize, Failed> {
        let noted = self.note();
        self.send(noted, from)
    }
}

/// A lane over a TCP listener.
#[derive(Drop)]
pub struct TcpDoor<'a, R> {
    clock: &'a R,
    listener: TcpListener,
    answered: AnswerMark,
    base: Duration,
    accepts: u32,
    faults: u64,
}

impl<'a, R: Clock> TcpDoor<'a, R> {
    /// The next connection, which sends what it is given at once. One mark serves all connections of the lane, one after another.
    fn next_connection(&self) -> io::Result<(TcpIn<'a, R, TcpStream>, TcpOut<'a, R>)> {
        let (stream, _) = self.listener.accept()?;
        let began = Instant::now(self.clock)?;
        stream.set_write_timeout(Some(self.base))?;
        stream.set_nodelay(true)?;
        let sink = TcpOut {
            clock: self.clock,
            sink: StdSink::new(stream.try_clone()?),
            began,
            answered: self.answered.share()?,
        };
        let _ = self.answered.take();
        let source = TcpIn {
            clock: self.clock,
            stream,
            began,
            answered: self.answered.share()?,
            base: self.base,
            since: Duration::ZERO,
            bytes: 0,
            timeout: None,
            faults: 0,
        };
        Ok((source, sink))
    }
}

impl<'a, R: Clock + Sync> Lane for TcpDoor<'a, R> {
    type In = TcpIn<'a, R, TcpStream>;

    type Out = TcpOut<'a, R>;

    ghost told = { λ d. None };

    ghost accepts = { λ d. d.accepts };

    ghost faults = { λ d. d.faults };

    fn accept(&mut self) -> Result<Option<(TcpIn<'a, R, TcpStream>, TcpOut<'a, R>)>, Failed> {
        if self.accepts == 0 {
            return Ok(None);
        }
        self.accepts -= 1;
        match self.next_connection() {
            Ok(pair) => Ok(Some(pair)),
            Err(_) => {
                self.faults = self.faults.saturating_add(1);
                thread::sleep(self.clock, Duration::from_millis(MOMENT));
                Err(Failed)
            }
        }
    }

    fn has_failed(&self) -> bool {
        self.faults > 0
    }

    fn finish(&mut self, source: TcpIn<'a, R, TcpStream>, sink: TcpOut<'a, R>) {
        drop(sink);
        // What the client does now changes no answer.
        let _ = source.let_go();
    }
}

/// A listener over TCP. Each of its lanes accepts connections of the one socket that was bound last.
#[derive(Drop)]
pub struct TcpDoors<'a, R> {
    rt: &'a R,
    alloc: Global,
    base: Duration,
    socket: Option<TcpListener>,
    place: Vec<u8>,
    bound: u32,
    lanes: u64,
    back: Vec<u32>,
    faults: u64,
    ghost room: { lanes ≤ vec_capacity back },
    ghost fewer: { vec_len back ≤ lanes },
}

impl<'a, R: Net<Listener = TcpListener, Stream = TcpStream> + Clock> TcpDoors<'a, R> {
    /// A listener that is not bound yet. `base` is how long a client has for a request at first, and how long a write waits for it.
    pub fn new(rt: &'a R, alloc: Global, base: Duration) -> TcpDoors<'a, R>
        ensures faults { result.faults ≡ 0 }
        ensures unbound { (result.bound ≡ 0) × (result.place.items ≡ []) × (result.lanes ≡ 0) × (result.back.items ≡ []) }
    {
        TcpDoors {
            rt,
            alloc,
            base,
            socket: None,
            place: Vec::new(alloc),
            bound: 0,
            lanes: 0,
            back: Vec::new(alloc),
            faults: 0,
        }
    }

    /// The port that it is bound to, if it is and the system says it.
    pub fn port(&self) -> Option<u16> {
        let at = self.socket.as_ref()?.local_addr().ok()?;
        Some(at.port())
    }

    /// A socket that listens at a place, which is a text `HOST:PORT`.
    fn listen(&self, at: &[u8]) -> Option<TcpListener> {
        let at = str::from_utf8(at).ok()?;
        TcpListener::bind(self.rt, at).ok()
    }

    /// A lane, and room for it to be given back.
    fn door(&mut self) -> Option<TcpDoor<'a, R>>
        ensures fresh { IfSome result (λ d. d.accepts ≡ self.old.bound) }
        ensures room { IfSome result (λ d. (self.old.lanes < 2 ^ 40) × (self.old.lanes < vec_capacity self.new.back)) }
        ensures back { self.new.back.items ≡ self.old.back.items }
        ensures kept { (self.new.lanes ≡ self.old.lanes) × (self.new.bound ≡ self.old.bound) × (self.new.place.items ≡ self.old.place.items) × (self.new.faults ≡ self.old.faults) }
    {
        if self.lanes >= 1 << 40 {
            return None;
        }
        let wanted = self.lanes as usize + 1;
        self.back.reserve(wanted - self.back.len()).ok()?;
        let socket = self.socket.as_ref()?;
        let listener = socket.try_clone().ok()?;
        let answered = AnswerMark::new(self.alloc).ok()?;
        Some(TcpDoor {
            clock: self.rt,
            listener,
            answered,
            base: self.base,
            accepts: self.bound,
            faults: 0,
        })
    }
}

impl<'a, R: Net<Listener = TcpListener, Stream = TcpStream> + Clock + Sync> Listener
    for TcpDoors<'a, R> {
    ghost use Rattle.std.proofs.Common.{rules};
    ghost use Rattle.ipam_listen.specs.Back.{read_within};
    ghost use Rattle.ipam_listen.specs.Tcp.{returned_door};

    type Door = TcpDoor<'a, R>;

    ghost bound = { λ l. binding l.place.items l.bound };

    ghost lanes = { λ l. l.lanes };

    ghost returned = { λ l. map returned_door l.back.items };

    ghost faults = { λ l. l.faults };

    fn bind(&mut self, at: Vec<u8>, connections: u32) -> Result<(), Failed> {
        match self.listen(at.as_slice()) {
            Some(socket) => {
                self.socket = Some(socket);
                self.place = at;
                self.bound = connections;
                Ok(())
            }
            None => {
                self.faults = self.faults.saturating_add(1);
                Err(Failed)
            }
        }
    }

    fn lane(&mut self) -> Result<TcpDoor<'a, R>, Failed> {
        match self.door() {
            Some(door) => {
                self.lanes += 1;
                Ok(door)
            }
            None => {
                self.faults = self.faults.saturating_add(1);
                Err(Failed)
            }
        }
    }

    fn give_back(&mut self, lane: TcpDoor<'a, R>) {
        if lane.faults > 0 {
            self.faults = self.faults.saturating_add(1);
        }
        self.back.push_reserved(lane.accepts);
    }

    ghost no_more_back = { λ l. read_within returned_door l.back.items l.lanes (let fewer = l.fewer in Prim.search (rules, fewer)) };
}
