//! What stops a call.

ghost use Rattle.std.specs.Prelude.{◌≡◌};
ghost use Rattle.pool_register.specs.Stops.{stop_of, no_memory, refusal_of};

use ipam_keeper::keeper::KeepFault;
use number_pools::PoolRefusal;
use std::alloc::AllocError;

/// What stops a call: out of memory, or its keeper.
#[derive(Clone, Copy, Debug)]
pub enum Stop {
    Memory,
    Keeper,
}

impl From<AllocError> for Stop {
    ghost from_gives = { λ e s. s ≡ no_memory };

    fn from(_: AllocError) -> Stop {
        Stop::Memory
    }
}

impl From<KeepFault> for Stop {
    ghost from_gives = { λ e s. s ≡ stop_of e };

    fn from(fault: KeepFault) -> Stop {
        match fault {
            KeepFault::Failed => Stop::Keeper,
            KeepFault::Memory => Stop::Memory,
        }
    }
}

impl Stop {
    /// The refusal that gives it.
    pub fn refusal(self) -> PoolRefusal
        ensures { result ≡ refusal_of self }
    {
        match self {
            Stop::Memory => PoolRefusal::Memory,
            Stop::Keeper => PoolRefusal::Keeper,
        }
    }
}
