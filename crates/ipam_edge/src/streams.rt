//! Streams, as the standard ones. They count their faults, and show what the stream itself shows:
//! the standard streams show nothing.
ghost use Rattle.std.specs.Prelude.{◌≡◌, ◌<◌, ◌≤◌, ◌+◌, min, IfOk, None, is_err, if◌then◌else◌, length};
ghost use Rattle.std.specs.Io.KnownBytes.{ReadConsumes, WriteAppends};
ghost use Rattle.ipam_edge.specs.Faults.{HasCause};
ghost use Rattle.ipam_edge.specs.Streams.{source_stream_faults, sink_stream_faults};

use crate::{Failed, Sink, Source};
use std::io;
use std::io::{Input, Print, Printer, Read, Stderr, StdinLock, Write};

/// A stream that bytes are read from, as standard input, in pieces as large as the reader's.
#[derive(Drop)]
pub struct StdSource<R> {
    stream: R,
    faults: u64,
}

impl<R: Read + Drop> StdSource<R> {
    ghost use Rattle.ipam_edge.specs.Streams.{source_stream, source_stream_faults};

    /// A source over a stream.
    pub fn new(stream: R) -> StdSource<R>
        ensures stream { source_stream result ≡ stream }
        ensures faults { source_stream_faults result ≡ 0 }
    {
        StdSource { stream, faults: 0 }
    }
}

impl<R: Read> Source for StdSource<R> {
    ghost left = { λ s. R.remaining s.stream };

    ghost faults = { λ s. s.faults };

    fn read(&mut self, into: &mut [u8]) -> Result<usize, Failed>
        ensures most { IfOk result (λ n. n ≤ length into.new) }
        ensures took { ReadConsumes (R.remaining self.old.stream) (R.remaining self.new.stream) result into.new }
        ensures step { Unit {0} }
        ensures cause { HasCause self.old.faults self.new.faults result }

        // The count rises exactly if the call fails.
        ensures counted { self.new.faults ≡ (if is_err result then min (self.old.faults + 1) u64.MAX else self.old.faults) }
    {
        match self.stream.read(into) {
            Ok(n) => Ok(n),
            Err(_) => {
                self.faults = self.faults.saturating_add(1);
                Err(Failed)
            }
        }
    }
}

/// A stream that bytes are written to, as standard output or standard error, each piece by one
/// call of the system. A call that takes none of a piece that has bytes is a fault.
#[derive(Drop)]
pub struct StdSink<W> {
    stream: W,
    faults: u64,
}

impl<W: Write + Drop> StdSink<W> {
    ghost use Rattle.ipam_edge.specs.Streams.{sink_stream, sink_stream_faults};

    /// A sink over a stream.
    pub fn new(stream: W) -> StdSink<W>
        ensures stream { sink_stream result ≡ stream }
        ensures faults { sink_stream_faults result ≡ 0 }
    {
        StdSink { stream, faults: 0 }
    }
}

impl<W: Write> Sink for StdSink<W> {
    ghost written = { λ s. W.contents s.stream };

    ghost faults = { λ s. s.faults };

    fn write(&mut self, from: &[u8]) -> Result<usize, Failed>
        ensures most { IfOk result (λ n. n ≤ length from.now) }
        ensures some { IfOk result (λ n. 0 < length from.now → 0 < n) }
        ensures gave { WriteAppends (W.contents self.old.stream) (W.contents self.new.stream) result from.now }
        ensures step { Unit {0} }
        ensures cause { HasCause self.old.faults self.new.faults result }

        // The count rises exactly if the call fails.
        ensures counted { self.new.faults ≡ (if is_err result then min (self.old.faults + 1) u64.MAX else self.old.faults) }
    {
        if from.is_empty() {
            return Ok(0);
        }
        match self.stream.write(from) {
            Ok(n) if n > 0 => Ok(n),
            _ => {
                self.faults = self.faults.saturating_add(1);
                Err(Failed)
            }
        }
    }
}

/// Standard input, as the runtime gives it. It has failed never so far, and does not show what is left.
pub fn standard_input(rt: &HostRuntime) -> StdSource<StdinLock<'static>>
    ensures faults { source_stream_faults result ≡ 0 }
    ensures left { ⟦<StdSource<StdinLock<'static>> as Source>⟧.left result ≡ None }
{
    StdSource::new(rt.reader())
}

/// Standard output, as the runtime gives it. It has failed never so far, and does not show what was
/// written.
pub fn standard_output<P: Print>(rt: &P) -> StdSink<Printer<'_, P>>
    ensures faults { sink_stream_faults result ≡ 0 }
    ensures written { ⟦<StdSink<Printer<'static, P>> as Sink>⟧.written result ≡ None }
{
    StdSink::new(io::writer(rt))
}

/// Standard error, as the runtime gives it. It has failed never so far, and does not show what was
/// written.
pub fn standard_error(rt: &HostRuntime) -> StdSink<Stderr>
    ensures faults { sink_stream_faults result ≡ 0 }
    ensures written { ⟦<StdSink<Stderr> as Sink>⟧.written result ≡ None }
{
    StdSink::new(rt.stderr())
}
