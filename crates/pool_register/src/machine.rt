//! Pools as a machine of the lock: so many callers can share them, and have one history.

ghost use Rattle.std.specs.Prelude.{◌≡◌, ◌^◌, ◌<◌, true, is_some, length};
ghost use Rattle.number_pools.specs.Machines.{IsTaken, kind_of};
ghost use Rattle.number_pools.specs.Rows.{empty_pools};
ghost use Rattle.pool_register.specs.Kept.{is_change, seen_step};

use crate::pools::Pools;
use history_lock::Machine;
use number_pools::{PoolCall, PoolReply};
use pool_keeper::keeper::PoolKeeper;
use std::marker::Model;

/// Pools as contracts of a lock see them. No value of it is made.
pub struct SeenPools {}

impl Model for SeenPools {
    ghost use Rattle.std.specs.Prelude.{true};
    ghost use Rattle.number_pools.specs.Rows.{empty_pools};
    ghost use Rattle.pool_register.specs.Kept.{Seen};

    ghost Value = { Seen };

    ghost view = { λ s. record { pools = empty_pools; tells = true } };
}

impl<K: PoolKeeper> Machine for Pools<K> {
    type Call = PoolCall;

    type Reply = PoolReply;

    type Said = PoolCall;

    type Answer = PoolReply;

    type State = SeenPools;

    ghost said = { λ c. c };

    ghost answer = { λ r. r };

    ghost kind = { kind_of };

    ghost fallible = { is_change };

    ghost takes = { IsTaken };

    ghost blank = { record { pools = empty_pools; tells = true } };

    ghost opening = { λ m. record { pools = m.opening; tells = is_some (K.told m.keeper) } };

    ghost state = { λ m. record { pools = m.state; tells = is_some (K.told m.keeper) } };

    ghost log = { λ m. m.log };

    ghost faults = { λ m. K.faults m.keeper };

    ghost step = { seen_step };

    fn act(&mut self, who: u32, call: PoolCall) -> PoolReply {
        Pools::act(self, who, call)
    }

    fn entries(&self) -> u64 {
        self.replayed();
        self.log().len() as u64
    }
}
