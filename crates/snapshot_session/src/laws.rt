//! Laws of the definitions: the function is empty, and its contract is the law.

ghost use Rattle.snapshot_session.specs.Numbers.{NumbersNeverFall};

/// Over the requests of one look, one after another, the numbers that are answered never fall.
pub fn numbers_never_fall()
    ensures { NumbersNeverFall }
{}
