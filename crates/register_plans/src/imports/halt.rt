//! Why an import stops.

ghost use Rattle.std.specs.Prelude.{◌≡◌};
ghost use Rattle.register_plans.specs.declared.imports.halt.Halt.TheVariants.{Memory};

use ipam_data::replies::Refusal;
use std::alloc::AllocError;

/// Why an import stops: it is refused, or memory runs out.
#[derive(Clone, Copy, Debug)]
pub enum Halt {
    Refused(Refusal),
    Memory,
}

impl From<AllocError> for Halt {
    ghost from_gives = { λ e h. h ≡ Memory };

    fn from(_: AllocError) -> Halt {
        Halt::Memory
    }
}
