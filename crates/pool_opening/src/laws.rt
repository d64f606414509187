//! Laws of the definitions: the function is empty, and its contract is the law.

ghost use Rattle.pool_opening.specs.Laws.{LawfulHaveNoFault};

/// The tables of lawful pools have no fault.
pub fn lawful_have_no_fault()
    ensures { LawfulHaveNoFault }
{}
