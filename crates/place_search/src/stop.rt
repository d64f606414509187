//! Why no ids are gathered.

use std::alloc::AllocError;

/// Why no ids are gathered.
#[derive(Clone, Copy, Debug)]
pub enum Stop {
    /// There are many rows, or a block occurs more than once in its table.
    Many,
    /// Out of memory.
    Memory,
}

impl From<AllocError> for Stop {
    ghost use Rattle.std.specs.Prelude.{◌≡◌};
    ghost use Rattle.place_search.specs.declared.stop.Stop.TheVariants.{Memory};

    ghost from_gives = { λ _ s. s ≡ Memory };

    fn from(_error: AllocError) -> Stop {
        Stop::Memory
    }
}
