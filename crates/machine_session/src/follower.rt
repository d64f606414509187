//! What is done after each change that one's own machine accepts.

ghost use Rattle.std.specs.Prelude.{◌≡◌, ℕ, Bool, true, List, OnOk};
ghost use Rattle.history_lock.specs.Replay.{replay};
ghost use Rattle.machine_session.specs.Owned.{IsBehind};

use history_lock::Machine;
use std::alloc::{AllocError, Global};

/// What follows a machine: after each accepted change, and before the change is answered, it does something of its own, such as showing
/// the change to readers.
pub trait Follower<M: Machine> {
    /// What it keeps to while the machine, opened in this state, has accepted these changes.
    ghost keeps: { Self → M.State → List (ℕ × M.Said) → Type 0 };

    /// What of it stays the same while it follows, such as the readers that it shows the machine to.
    ghost Tag: { Type 0 };

    ghost tag: { Self → Tag };

    /// Whether it could follow every change so far.
    ghost whole: { Self → Bool };

    /// It is a fact, with one proof at most, that it keeps to this.
    ghost keeps_is_fact: { (f : Self) → (opening : M.State) → (log : List (ℕ × M.Said)) → IsProp (keeps f opening log) };

    /// Follows the change that the machine accepted last. The one error means out of memory: the change stays, and its answer is lost.
    fn follow(self, alloc: Global, machine: &M) -> (Self, Result<(), AllocError>)
        requires state { M.state machine.now ≡ replay M.step (M.opening machine.now) (M.log machine.now) }
        requires kept { IsBehind (keeps self (M.opening machine.now)) (M.log machine.now) }
        ensures kept { keeps result.0 (M.opening machine.now) (M.log machine.now) }
        ensures tag { tag result.0 ≡ tag self }
        ensures whole { whole self ≡ true → OnOk result.1 (whole result.0 ≡ true) };
}

/// Nothing follows the machine.
#[derive(Clone, Copy, Debug, Drop)]
pub struct NoFollower;

impl<M: Machine> Follower<M> for NoFollower {
    ghost use Rattle.std.proofs.Props.{props};

    ghost keeps = { λ f opening log. Unit {0} };

    ghost Tag = { Unit {0} };

    ghost tag = { λ f. tt };

    ghost whole = { λ f. true };

    ghost keeps_is_fact = { λ f opening log. Prim.hlevel props };

    fn follow(self, _alloc: Global, _machine: &M) -> (NoFollower, Result<(), AllocError>) {
        (self, Ok(()))
    }
}
