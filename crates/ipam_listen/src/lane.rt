//! Where one worker takes its connections from.
ghost use Rattle.std.specs.Prelude.{option_map, ◌≡◌, ◌-◌, ◌<◌, ◌↔◌, ℕ, List, Option, IfSome, IsErr, IsTrue};
ghost use Rattle.ipam_listen.specs.Connections.{Connection, IsLastOut, IsNoneExactly, RisesExactly, ends_of, last_finished, told_after_accept};

use ipam_edge::{Failed, Sink, Source};
use std::marker::Send;

/// What hands out connections one after another, and takes each back.
pub trait Lane {
    /// What a connection's bytes are read from.
    type In: Source + Send;

    /// What its answers are written to.
    type Out: Sink + Send;

    /// The connections that it handed out, in order, each with what was said of its ends then and, once it is finished, as it was
    /// taken back; if they are known. Once known, they stay known.
    ghost told: { Self → Option (List Connection) };

    /// How many accepts are left.
    ghost accepts: { Self → ℕ };

    /// How often it has failed so far: a count that never falls.
    ghost faults: { Self → ℕ };

    /// Waits for the next connection. None exactly if no accept is left; each other accept, failed or not, spends one. The count of
    /// faults rises exactly if it fails.
    fn accept(&mut self) -> Result<Option<(Self::In, Self::Out)>, Failed>
        ensures none { IsNoneExactly (accepts self.old) result }
        ensures spends { accepts self.new ≡ accepts self.old - 1 }
        ensures told { told self.new ≡ told_after_accept (λ source sink. ends_of (Self.In.left source) (Self.Out.written sink) (Self.In.faults source) (Self.Out.faults sink)) (told self.old) result }
        ensures cause { RisesExactly (IsErr result) (faults self.old) (faults self.new) };

    /// Whether an accept has failed so far.
    fn has_failed(&self) -> bool
        ensures { IsTrue result ↔ (0 < faults self.now) };

    /// Takes back the connection that `accept` gave last. It takes no memory.
    fn finish(&mut self, source: Self::In, sink: Self::Out)
        requires out { IfSome (told self.old) IsLastOut }
        ensures told { told self.new ≡ option_map (λ connections. last_finished connections (ends_of (Self.In.left source) (Self.Out.written sink) (Self.In.faults source) (Self.Out.faults sink))) (told self.old) }
        ensures accepts { accepts self.new ≡ accepts self.old }
        ensures faults { faults self.new ≡ faults self.old };
}
