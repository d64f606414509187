//! A source and a sink in one object: what is built on it can say which of its reads were before which of its writes.
ghost use Rattle.std.specs.Prelude.{◌≡◌, ℕ, List, Option};

use crate::{Failed, Sink, Source};

/// A source and a sink that are one object, as a connection is.
pub trait Line: Source + Sink {
    /// A read writes nothing.
    ghost read_writes_nothing: { (s t : Self) (g : Option (List ℕ)) → Self.Source.reads s g t → Self.Sink.written t ≡ Self.Sink.written s };

    /// A read that fails counts as no failed write.
    ghost read_counts_for_itself: { (s t : Self) (g : Option (List ℕ)) → Self.Source.reads s g t → Self.Sink.faults t ≡ Self.Sink.faults s };

    /// A write reads nothing.
    ghost write_reads_nothing: { (s t : Self) (g : Option (List ℕ)) → Self.Sink.writes s g t → Self.Source.left t ≡ Self.Source.left s };

    /// A write that fails counts as no failed read.
    ghost write_counts_for_itself: { (s t : Self) (g : Option (List ℕ)) → Self.Sink.writes s g t → Self.Source.faults t ≡ Self.Source.faults s };
}

/// A source and a sink, lent to be one line.
#[derive(Drop)]
pub struct Both<'a, R, W> {
    pub source: &'a mut R,
    pub sink: &'a mut W,
}

impl<'a, R: Source, W: Sink> Source for Both<'a, R, W> {
    ghost use Rattle.ipam_edge.specs.Lines.{IsBothRead};

    ghost left = { λ b. R.left b.source.now };

    ghost faults = { λ b. R.faults b.source.now };

    ghost reads = { λ b g c. IsBothRead R.reads b g c };

    fn read(&mut self, into: &mut [u8]) -> Result<usize, Failed> {
        self.source.read(into)
    }
}

impl<'a, R: Source, W: Sink> Sink for Both<'a, R, W> {
    ghost use Rattle.ipam_edge.specs.Lines.{IsBothWrite};

    ghost written = { λ b. W.written b.sink.now };

    ghost faults = { λ b. W.faults b.sink.now };

    ghost writes = { λ b g c. IsBothWrite W.writes b g c };

    fn write(&mut self, from: &[u8]) -> Result<usize, Failed> {
        self.sink.write(from)
    }
}

impl<'a, R: Source, W: Sink> Line for Both<'a, R, W> {
    ghost use Rattle.std.proofs.Common.{ap};

    ghost read_writes_nothing = { λ s t g h. ap W.Sink.written h.sink };

    ghost read_counts_for_itself = { λ s t g h. ap W.Sink.faults h.sink };

    ghost write_reads_nothing = { λ s t g h. ap R.Source.left h.source };

    ghost write_counts_for_itself = { λ s t g h. ap R.Source.faults h.source };
}
