//! Laws of keys: each function is empty, and its contract is the law.

ghost use Rattle.register_plans.specs.TextKeys.{KeysAreExact};

/// Two lists of texts with one key are the same.
pub fn keys_are_exact()
    ensures { KeysAreExact }
{}
