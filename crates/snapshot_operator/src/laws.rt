//! Laws of the definitions: each function is empty, and its contract is the law.

ghost use Rattle.snapshot_operator.specs.Shown.{NumbersAreStates};

/// What readers of a feed that shows a register are answered after n changes, is what the register answers after its first n accepted
/// changes.
pub fn numbers_are_states()
    ensures { NumbersAreStates }
{}
