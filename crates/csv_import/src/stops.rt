//! Why a line of a file is not read.

use ipam_data::replies::RowFault;

/// Why a line is not read.
#[derive(Clone, Copy, Debug)]
pub enum Stop {
    /// The row is refused.
    Fault(RowFault),
    /// Out of memory.
    Memory,
}

impl From<RowFault> for Stop {
    ghost use Rattle.std.specs.Prelude.{◌≡◌};
    ghost use Rattle.csv_import.specs.declared.stops.Stop.TheVariants.{Fault};

    ghost from_gives = { λ fault s. s ≡ Fault fault };

    fn from(fault: RowFault) -> Stop {
        Stop::Fault(fault)
    }
}
