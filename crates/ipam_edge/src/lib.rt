//! The outside: what bytes are read from and written to, the same objects over memory and over the
//! standard streams. Every failure is counted, so that a program can show why it failed.
#![tactic(auto)]

mod line;
mod memory;
mod streams;
mod whole;

ghost use Rattle.std.specs.Prelude.{◌≡◌, ◌<◌, ◌≤◌, ℕ, List, Option, IfOk, OnErr, length};
ghost use Rattle.std.specs.Io.KnownBytes.{ReadConsumes, WriteAppends};
ghost use Rattle.ipam_edge.specs.Faults.{HasCause};
ghost use Rattle.ipam_edge.specs.Reading.{given};
ghost use Rattle.ipam_edge.specs.Writing.{AppendsLess, ByWrites, WritesAll, taken};

pub use line::{Both, Line};
pub use memory::{BytesSink, BytesSource};
pub use streams::{StdSink, StdSource, standard_error, standard_input, standard_output};
pub use whole::{Unread, read_whole};

/// The object failed, and counted it.
#[derive(Clone, Copy, Debug, PartialEq, Eq)]
pub struct Failed;

/// What bytes are read from.
pub trait Source {
    /// The bytes that reads will give from here on, if they are known. Once known, they
    /// stay known.
    ghost left: { Self → Option (List ℕ) };

    /// How often it has failed so far: a count that never falls, and rises only if a call fails.
    ghost faults: { Self → ℕ };

    /// Which reads the object admits: from one state, with the bytes that are given (`None` if it
    /// fails), to the next. So what is built on a source can say how often it reads, and when.
    ghost reads: { Self → Option (List ℕ) → Self → Type 0 } = { λ _ _ _. Unit {0} };

    /// Reads the next bytes into the start of the piece, and says how many. Into a piece that is
    /// not empty, 0 says that the input has ended, and at the end of a known input the answer is 0.
    /// After `Failed` no known byte is lost; what the piece holds then is open.
    fn read(&mut self, into: &mut [u8]) -> Result<usize, Failed>
        ensures most { IfOk result (λ n. n ≤ length into.new) }
        ensures took { ReadConsumes (left self.old) (left self.new) result into.new }
        ensures step { reads self.old (given result into.new) self.new }
        ensures cause { HasCause (faults self.old) (faults self.new) result };
}

/// What bytes are written to.
pub trait Sink {
    /// The bytes that were written so far, if they are known. Once known, they stay
    /// known.
    ghost written: { Self → Option (List ℕ) };

    /// How often it has failed so far: a count that never falls, and rises only if a call fails.
    ghost faults: { Self → ℕ };

    /// Which writes the object admits: from one state, with the bytes that are taken (`None` if it
    /// fails), to the next. So what is built on a sink can say when it writes.
    ghost writes: { Self → Option (List ℕ) → Self → Type 0 } = { λ _ _ _. Unit {0} };

    /// Writes bytes from the start of the piece, and says how many: at least one, if the piece is
    /// not empty. `Failed` wrote nothing.
    fn write(&mut self, from: &[u8]) -> Result<usize, Failed>
        ensures most { IfOk result (λ n. n ≤ length from.now) }
        ensures some { IfOk result (λ n. 0 < length from.now → 0 < n) }
        ensures gave { WriteAppends (written self.old) (written self.new) result from.now }
        ensures step { writes self.old (taken result from.now) self.new }
        ensures cause { HasCause (faults self.old) (faults self.new) result };
}

/// Writes all of the bytes. `Failed` is returned if a write failed, and then a prefix of the bytes was
/// written, which may be empty and is never the whole.
pub fn write_all<S: Sink>(sink: &mut S, bytes: &[u8]) -> Result<(), Failed>
    ensures told { WritesAll (S.written sink.old) (S.written sink.new) result bytes.now }
    ensures less { OnErr result (AppendsLess (S.written sink.old) (S.written sink.new) bytes.now) }
    ensures writes { ByWrites S.writes sink.old sink.new }
    ensures cause { HasCause (S.faults sink.old) (S.faults sink.new) result }
{
    let mut done = 0;
    while done < bytes.len() {
        done += sink.write(&bytes[done..])?;
    }
    Ok(())
}
