//! Laws of the definitions: each function is empty, and its contract is the law.

ghost use Rattle.number_pools.specs.Laws.{EmptyIsLawful, StepsKeepLawful};
ghost use Rattle.number_pools.specs.Limits.{HasPoolLimits};

/// Pools without rows are lawful.
pub fn empty_is_lawful()
    ensures { EmptyIsLawful }
{}

/// Each call leaves lawful pools.
pub fn steps_keep_lawful()
    ensures { StepsKeepLawful }
{}

/// The limits that the definitions name are these numbers.
pub fn limits_are()
    ensures { HasPoolLimits }
{}
