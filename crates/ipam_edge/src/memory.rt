//! A source and a sink in memory, whose failing calls are chosen: for tests of what is built on them.
ghost use Rattle.std.specs.Prelude.{◌≡◌, ◌<◌, ◌≤◌, ◌+◌, ◌-◌, ◌++◌, ◌↔◌, ◌⊎◌, min, Some, Contains, IsTrue, IsErr, IfOk, OnErr, [], drop, take, length, is_err, if◌then◌else◌, vec_len, vec_capacity};
ghost use Rattle.std.specs.Io.KnownBytes.{ReadConsumes, WriteAppends};
ghost use Rattle.ipam_edge.specs.Faults.{HasCause};

use crate::{Failed, Sink, Source};
use std::alloc::{AllocError, Global};

/// Whether the call's number is among the numbers.
fn is_among(numbers: &[u32], call: u64) -> bool
    ensures { IsTrue result ↔ Contains numbers.now call }
{
    numbers.iter().any(|number| u64::from(*number) == call)
}

/// Bytes in memory as a source. Its bytes and its faults are known.
#[derive(Drop)]
pub struct BytesSource {
    bytes: Vec<u8>,
    at: usize,
    fails: Vec<u32>,
    piece: usize,
    calls: u64,
    faults: u64,
    ghost within: { at ≤ vec_len bytes },
    ghost some: { 0 < piece },
}

impl BytesSource {
    ghost use Rattle.ipam_edge.specs.Memory.{source_left, source_fails, source_piece, source_calls, source_faults};

    /// A source of these bytes. `fails` has the numbers of the reads that fail, counted from 0;
    /// no read gives more than `piece` bytes.
    pub fn new(bytes: Vec<u8>, fails: Vec<u32>, piece: usize) -> BytesSource
        requires { 0 < piece }
        ensures left { source_left result ≡ bytes.items }
        ensures fails { source_fails result ≡ fails.items }
        ensures piece { source_piece result ≡ piece }
        ensures calls { source_calls result ≡ 0 }
        ensures faults { source_faults result ≡ 0 }
    {
        BytesSource {
            bytes,
            at: 0,
            fails,
            piece,
            calls: 0,
            faults: 0,
        }
    }

    /// The bytes that were not read yet.
    pub fn left(&self) -> &[u8]
        ensures { result.now ≡ source_left self.now }
    {
        &self.bytes[self.at..]
    }

    /// How many reads failed.
    pub fn faults(&self) -> u64
        ensures { result ≡ source_faults self.now }
    {
        self.faults
    }
}

impl Source for BytesSource {
    ghost use Rattle.ipam_edge.specs.Memory.{source_left, source_fails, source_piece, source_calls, source_faults, IsSourceRead, KeepsSource};
    ghost use Rattle.ipam_edge.specs.Reading.{given};

    ghost left = { λ s. Some (source_left s) };

    ghost faults = { λ s. source_faults s };

    ghost reads = { λ s bytes t. IsSourceRead s bytes t };

    fn read(&mut self, into: &mut [u8]) -> Result<usize, Failed>
        ensures most { IfOk result (λ n. n ≤ length into.new) }
        ensures took { ReadConsumes (Some (source_left self.old)) (Some (source_left self.new)) result into.new }
        ensures step { IsSourceRead self.old (given result into.new) self.new }
        ensures cause { HasCause (source_faults self.old) (source_faults self.new) result }

        // The call fails exactly if its number is one of those given.
        ensures fails { IsErr result ↔ Contains (source_fails self.old) (source_calls self.old) }
        ensures exact { IfOk result (λ n. n ≡ min (length into.new) (min (source_piece self.old) (length (source_left self.old)))) }
        ensures counted { source_faults self.new ≡ (if is_err result then min (source_faults self.old + 1) u64.MAX else source_faults self.old) }
        ensures numbered { source_calls self.new ≡ min (source_calls self.old + 1) u64.MAX }
        ensures kept { KeepsSource self.old self.new }
    {
        let call = self.calls;
        self.calls = self.calls.saturating_add(1);
        if is_among(&self.fails, call) {
            self.faults = self.faults.saturating_add(1);
            return Err(Failed);
        }
        let n = into.len().min(self.piece.min(self.bytes.len() - self.at));
        into[..n].copy_from_slice(&self.bytes[self.at..self.at + n]);
        self.at += n;
        Ok(n)
    }
}

/// Memory as a sink, with room for some bytes. Its bytes and its faults are known.
#[derive(Drop)]
pub struct BytesSink {
    bytes: Vec<u8>,
    fails: Vec<u32>,
    piece: usize,
    room: usize,
    calls: u64,
    faults: u64,
    ghost within: { vec_len bytes ≤ room },
    ghost taken: { room ≤ vec_capacity bytes },
    ghost some: { 0 < piece },
}

impl BytesSink {
    ghost use Rattle.ipam_edge.specs.Memory.{sink_bytes, sink_fails, sink_piece, sink_room, sink_calls, sink_faults};

    /// An empty sink, which takes the memory for its room here and none later. `fails` has the
    /// numbers of the writes that fail, counted from 0; no write takes more than `piece` bytes, and
    /// a write of some bytes fails too once `room` bytes were written.
    pub fn new(
        alloc: Global,
        fails: Vec<u32>,
        piece: usize,
        room: usize,
    ) -> Result<BytesSink, AllocError>
        requires { 0 < piece }
        ensures bytes { IfOk result (λ s. sink_bytes s ≡ []) }
        ensures fails { IfOk result (λ s. sink_fails s ≡ fails.items) }
        ensures piece { IfOk result (λ s. sink_piece s ≡ piece) }
        ensures room { IfOk result (λ s. sink_room s ≡ room) }
        ensures calls { IfOk result (λ s. sink_calls s ≡ 0) }
        ensures faults { IfOk result (λ s. sink_faults s ≡ 0) }
    {
        let bytes = Vec::with_capacity(alloc, room)?;
        Ok(BytesSink {
            bytes,
            fails,
            piece,
            room,
            calls: 0,
            faults: 0,
        })
    }

    /// The bytes that were written.
    pub fn bytes(&self) -> &[u8]
        ensures { result.now ≡ sink_bytes self.now }
    {
        self.bytes.as_slice()
    }

    /// The bytes that were written, in place of the sink.
    pub fn into_bytes(self) -> Vec<u8>
        ensures { result.items ≡ sink_bytes self }
    {
        self.bytes
    }

    /// How many writes failed.
    pub fn faults(&self) -> u64
        ensures { result ≡ sink_faults self.now }
    {
        self.faults
    }

    /// Counts a failed write.
    fn fail(&mut self) -> Result<usize, Failed>
        ensures counted { self.new ≡ record self.old { faults = min (self.old.faults + 1) u64.MAX } }
        ensures cause { HasCause self.old.faults self.new.faults result }
        ensures fails { IsErr result }
    {
        self.faults = self.faults.saturating_add(1);
        Err(Failed)
    }
}

impl Sink for BytesSink {
    ghost use Rattle.ipam_edge.specs.Memory.{sink_bytes, sink_fails, sink_piece, sink_room, sink_calls, sink_faults, KeepsSink};

    ghost written = { λ s. Some (sink_bytes s) };

    ghost faults = { λ s. sink_faults s };

    fn write(&mut self, from: &[u8]) -> Result<usize, Failed>
        ensures most { IfOk result (λ n. n ≤ length from.now) }
        ensures some { IfOk result (λ n. 0 < length from.now → 0 < n) }
        ensures gave { WriteAppends (Some (sink_bytes self.old)) (Some (sink_bytes self.new)) result from.now }
        ensures step { Unit {0} }
        ensures cause { HasCause (sink_faults self.old) (sink_faults self.new) result }

        // The call fails exactly if its number is one of those given, or if the sink is full.
        ensures fails { IsErr result ↔ (Contains (sink_fails self.old) (sink_calls self.old) ⊎ ((0 < length from.now) × (sink_room self.old ≤ length (sink_bytes self.old)))) }
        ensures exact { IfOk result (λ n. n ≡ min (length from.now) (min (sink_piece self.old) (sink_room self.old - length (sink_bytes self.old)))) }
        ensures counted { sink_faults self.new ≡ (if is_err result then min (sink_faults self.old + 1) u64.MAX else sink_faults self.old) }
        ensures numbered { sink_calls self.new ≡ min (sink_calls self.old + 1) u64.MAX }
        ensures kept { KeepsSink self.old self.new }
    {
        let call = self.calls;
        self.calls = self.calls.saturating_add(1);
        if is_among(&self.fails, call) {
            return self.fail();
        }
        let room = self.room - self.bytes.len();
        if room == 0 && !from.is_empty() {
            return self.fail();
        }
        let n = from.len().min(self.piece.min(room));
        match self.bytes.extend_from_slice(&from[..n]) {
            Ok(()) => Ok(n),
            Err(_) => unreachable!(),
        }
    }
}
