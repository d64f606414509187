//! How long a client may take, so that it cannot hold a worker for ever.
ghost use Rattle.std.specs.Prelude.{◌≡◌, ◌<◌, ◌≤◌, ◌+◌, ◌-◌, ◌*◌, ◌^◌, ◌↔◌, IfSome, IsSome};
ghost use Rattle.std.specs.Duration.{as_nanos};
ghost use Rattle.ipam_listen.specs.Patience.{allowed_nanos};

use std::time::Duration;

/// How many bytes a client sends at least for each second that it takes beyond the base time.
const BYTES_A_SECOND: u64 = 500;

/// How long a read may wait for a client that sent so many bytes and took so much time: what is left of the base time and a second
/// for every 500 bytes, or none if nothing is left.
pub(crate) fn patience_left(base: Duration, bytes: u64, taken: Duration) -> Option<Duration>
    ensures some { IfSome result (λ left. as_nanos left + as_nanos taken ≡ allowed_nanos (as_nanos base) bytes) }
    ensures variant { IsSome result ↔ (as_nanos taken < allowed_nanos (as_nanos base) bytes) }
{
    let allowed = base.saturating_add(Duration::from_secs(bytes / BYTES_A_SECOND));
    let left = allowed.checked_sub(taken)?;
    if left.is_zero() {
        return None;
    }
    Some(left)
}

/// The seconds of a time-out that is longer than this wait, by a second at most. They seldom change from one request to the next.
pub(crate) fn seconds_past(left: Duration) -> u64
    ensures most { result * 10 ^ 9 ≤ as_nanos left + 10 ^ 9 }
    ensures least { result < 2 ^ 64 - 1 → as_nanos left < result * 10 ^ 9 }
{
    left.as_secs().saturating_add(1)
}
