//! A register to work over.
ghost use Rattle.std.specs.Prelude.{◌≡◌, [], IfOk};

use history_lock::{Seat, Shared};
use ipam_keeper::empty::empty_tables;
use ipam_keeper::memory::MemoryKeeper;
use register_core::{Register, Settings, open};
use std::alloc::{AllocError, Global};

/// A register in memory without rows.
fn opened(alloc: Global) -> Result<Register<MemoryKeeper>, AllocError>
    ensures { IfOk result (λ r. r.log ≡ []) }
{
    let keeper = MemoryKeeper::new(empty_tables(alloc)?, Vec::new(alloc));
    let settings = Settings {
        global_unique: true,
    };
    match open(alloc, keeper, settings) {
        Ok(register) => Ok(register),
        Err((keeper, _)) => {
            drop(keeper);
            Err(AllocError)
        }
    }
}

/// A lock over such a register, and its first seat.
pub fn locked(
    alloc: Global,
) -> Result<(Shared<Register<MemoryKeeper>>, Seat<Register<MemoryKeeper>>), AllocError>
    ensures lock { IfOk result (λ r. r.1.lock ≡ r.0) }
    ensures spare { IfOk result (λ r. (r.1.spare ≡ 65536) × (r.1.weight ≡ 65536)) }
{
    let register = opened(alloc)?;
    match Shared::new(alloc, register) {
        Ok(both) => Ok(both),
        Err(register) => {
            drop(register);
            Err(AllocError)
        }
    }
}
