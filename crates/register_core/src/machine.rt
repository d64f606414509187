//! The register as a machine of the lock: so many callers can share one, and have one history.

ghost use Rattle.std.specs.Prelude.{◌≡◌, ◌^◌, ◌<◌, true, length, map, List, ℕ};
ghost use Rattle.ipam_data.specs.State.{empty_state};
ghost use Rattle.ipam_data.specs.Replays.{is_accepted};
ghost use Rattle.register_core.specs.Machines.{kind_of, pair_of, seen, seen_step};

use crate::register::Register;
use history_lock::Machine;
use ipam_data::calls::Call;
use ipam_data::replies::Reply;
use ipam_keeper::keeper::Keeper;
use std::marker::Model;

/// A state, and whether the tables of the keeper are known, as contracts of a lock see them. No value of it is made.
pub struct SeenState {}

impl Model for SeenState {
    ghost use Rattle.std.specs.Prelude.{true};
    ghost use Rattle.ipam_data.specs.State.{empty_state};
    ghost use Rattle.register_core.specs.Machines.{Seen};

    ghost Value = { Seen };

    ghost view = { λ s. record { state = empty_state true; tells = true } };
}

impl<K: Keeper> Machine for Register<K> {
    type Call = Call;

    type Reply = Reply;

    type Said = Call;

    type Answer = Reply;

    type State = SeenState;

    ghost said = { λ c. c };

    ghost answer = { λ r. r };

    ghost kind = { kind_of };

    ghost fallible = { is_accepted };

    ghost takes = { λ c. Unit {0} };

    ghost blank = { record { state = empty_state true; tells = true } };

    ghost opening = { λ m. seen m.opening (K.told m.keeper) };

    ghost state = { λ m. seen m.state (K.told m.keeper) };

    ghost log = { λ m. map pair_of m.log };

    ghost faults = { λ m. K.faults m.keeper };

    ghost step = { seen_step };

    fn act(&mut self, who: u32, call: Call) -> Reply {
        Register::act(self, who, call)
    }

    fn entries(&self) -> u64 {
        self.replayed();
        self.log().len() as u64
    }
}
