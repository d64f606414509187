//! Where lanes come from.
ghost use Rattle.std.specs.Prelude.{◌≡◌, ◌+◌, ◌<◌, ◌≤◌, ◌++◌, ◌∷◌, [], ℕ, List, length, IfOk, IfSome, IsErr, MatchResult};
ghost use Rattle.ipam_listen.specs.Connections.{Binding, Returned, RisesExactly, binding};

use crate::lane::Lane;
use ipam_edge::Failed;
use std::marker::Send;

/// What is bound to a place, hands out lanes for the connections to it, and takes the lanes back.
pub trait Listener {
    /// What one worker takes its connections from.
    type Door: Lane + Send;

    /// What it is bound to, by the last `bind` that answered Ok: a place, and how many connections each lane may accept.
    ghost bound: { Self → Binding };

    /// How many lanes it handed out.
    ghost lanes: { Self → ℕ };

    /// The lanes that were given back, in that order.
    ghost returned: { Self → List Returned };

    /// How often it has failed so far: a count that never falls.
    ghost faults: { Self → ℕ };

    /// Binds it to a place, a text `HOST:PORT`; each lane from now on accepts so many connections. The count of faults rises exactly if
    /// it fails.
    fn bind(&mut self, at: Vec<u8>, connections: u32) -> Result<(), Failed>
        ensures bound { MatchResult result (λ _. bound self.new ≡ binding at.items connections) (λ _. bound self.new ≡ bound self.old) }
        ensures lanes { lanes self.new ≡ lanes self.old }
        ensures returned { returned self.new ≡ returned self.old }
        ensures cause { RisesExactly (IsErr result) (faults self.old) (faults self.new) };

    /// Hands out a lane, which has handed out no connection yet. The count of faults rises exactly if it fails.
    fn lane(&mut self) -> Result<Self::Door, Failed>
        ensures fresh { IfOk result (λ lane. (Self.Door.accepts lane ≡ (bound self.old).connections) × IfSome (Self.Door.told lane) (λ connections. connections ≡ [])) }
        ensures lanes { MatchResult result (λ _. lanes self.new ≡ lanes self.old + 1) (λ _. lanes self.new ≡ lanes self.old) }
        ensures bound { bound self.new ≡ bound self.old }
        ensures returned { returned self.new ≡ returned self.old }
        ensures cause { RisesExactly (IsErr result) (faults self.old) (faults self.new) };

    /// Takes a lane back. It takes no memory. The count of faults rises exactly if the lane failed.
    fn give_back(&mut self, lane: Self::Door)
        requires out { length (returned self.old) < lanes self.old }
        ensures returned { returned self.new ≡ returned self.old ++ record { told = Self.Door.told lane; accepts = Self.Door.accepts lane } ∷ [] }
        ensures lanes { lanes self.new ≡ lanes self.old }
        ensures bound { bound self.new ≡ bound self.old }
        ensures cause { RisesExactly (0 < Self.Door.faults lane) (faults self.old) (faults self.new) };

    /// No more lanes were given back than were handed out.
    ghost no_more_back: { (x : Self) → length (returned x) ≤ lanes x };
}
