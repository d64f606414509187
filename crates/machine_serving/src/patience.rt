//! How long a client is waited for.

ghost use Rattle.machine_serving.specs.Limits.{HasServingLimits};

/// How many seconds a client may be silent at first, and how many a write waits for it.
pub const PATIENCE: u64 = 30;

/// A law: the limits of serving are these numbers.
pub fn limits_are()
    ensures { HasServingLimits }
{}
