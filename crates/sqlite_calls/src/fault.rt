//! What stops a call over a file, and what it is to the caller of a keeper.

ghost use Rattle.std.specs.Prelude.{◌≡◌, ◌≢◌, MatchBool};
ghost use Rattle.sqlite.specs.declared.error.Error.TheVariants.{SqliteFailure};
ghost use Rattle.sqlite.specs.declared.error.ErrorCode.TheVariants.{OutOfMemory};
ghost use Rattle.ipam_keeper.specs.Keeping.{IsRaised};

use ipam_keeper::keeper::KeepFault;
use sqlite::{Error, ErrorCode};
use std::alloc::{AllocError, AllocFailed};

/// Why a call over a file stopped.
#[derive(Clone, Copy, Debug)]
pub enum StoreFault {
    /// The file could not be read or written, or holds other than it should.
    Failed,
    /// Out of memory.
    Memory,
}

/// Whether an error means out of memory.
fn is_want(error: &Error) -> bool
    ensures { MatchBool result (error.now ≡ SqliteFailure OutOfMemory) (error.now ≢ SqliteFailure OutOfMemory) }
{
    matches!(error, Error::SqliteFailure(ErrorCode::OutOfMemory))
}

impl From<Error> for StoreFault {
    fn from(error: Error) -> StoreFault {
        if is_want(&error) {
            return StoreFault::Memory;
        }
        StoreFault::Failed
    }
}

impl From<AllocError> for StoreFault {
    fn from(_fault: AllocError) -> StoreFault {
        StoreFault::Memory
    }
}

impl<T: Drop> From<AllocFailed<T>> for StoreFault {
    fn from(_fault: AllocFailed<T>) -> StoreFault {
        StoreFault::Memory
    }
}

/// What a stop is to the caller of a keeper or an opener. It is counted, as far as the count goes, unless it means out of memory.
pub fn refused(faults: &mut u64, fault: StoreFault) -> KeepFault
    ensures memory { fault ≡ StoreFault.Memory → (result ≡ KeepFault.Memory) × (faults.new ≡ faults.old) }
    ensures failed { fault ≡ StoreFault.Failed → (result ≡ KeepFault.Failed) × IsRaised faults.old 1 faults.new }
{
    match fault {
        StoreFault::Memory => KeepFault::Memory,
        StoreFault::Failed => {
            *faults = faults.saturating_add(1);
            KeepFault::Failed
        }
    }
}
