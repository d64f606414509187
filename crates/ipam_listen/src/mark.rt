//! When a client was answered: both ends of its connection know it.
ghost use Rattle.std.specs.Prelude.{◌≡◌, ◌<◌, ◌*◌, ◌/◌, ◌^◌, ◌-◌, ◌↔◌, min, IfSome, IsSome};
ghost use Rattle.std.specs.Duration.{as_nanos};

use std::alloc::{AllocError, Global};
use std::sync::Arc;
use std::sync::atomic::{AtomicU64, Ordering};
use std::time::Duration;

/// What a mark holds if nothing was written since the last read.
const UNSET: u64 = u64::MAX;

/// Shows that a mark was set, or was found set. Only this module makes one.
#[derive(Drop)]
pub(crate) struct Noted(());

/// A time as a mark holds it, in whole milliseconds; what is too long for that counts as none.
fn millis_of(at: Duration) -> u64
    ensures { result ≡ min (as_nanos at / 10 ^ 6) (2 ^ 64 - 1) }
{
    u64::try_from(at.as_millis()).unwrap_or(UNSET)
}

/// The time that a mark holds, if it is set.
fn time_of(millis: u64) -> Option<Duration>
    ensures some { IfSome result (λ at. as_nanos at ≡ millis * 10 ^ 6) }
    ensures variant { IsSome result ↔ (millis < 2 ^ 64 - 1) }
{
    if millis == UNSET {
        return None;
    }
    Some(Duration::from_millis(millis))
}

/// When a client was first written to since it was last read from, in milliseconds since its connection began. The end that reads takes
/// the mark away, and the end that writes sets it.
#[derive(Drop)]
pub(crate) struct AnswerMark {
    millis: Arc<AtomicU64>,
}

impl AnswerMark {
    /// A mark that is not set. `Err` means out of memory.
    pub(crate) fn new(alloc: Global) -> Result<AnswerMark, AllocError> {
        Ok(AnswerMark {
            millis: Arc::new(alloc, AtomicU64::new(UNSET))?,
        })
    }

    /// The same mark for another end. It takes no memory; `Err` means that the mark has too many ends.
    pub(crate) fn share(&self) -> Result<AnswerMark, AllocError> {
        Ok(AnswerMark {
            millis: Arc::try_clone(&self.millis)?,
        })
    }

    /// Whether something was written since the last read.
    pub(crate) fn noted(&self) -> Option<Noted> {
        if self.millis.load(Ordering::SeqCst) == UNSET {
            return None;
        }
        Some(Noted(()))
    }

    /// Something was written at this time.
    pub(crate) fn set(&self, at: Duration) -> Noted {
        self.millis.store(millis_of(at), Ordering::SeqCst);
        Noted(())
    }

    /// Takes the mark away, and says when it was set, if it was.
    pub(crate) fn take(&self) -> Option<Duration> {
        time_of(self.millis.swap(UNSET, Ordering::SeqCst))
    }
}
