//! Laws of the definitions: each function is empty, and its contract is the law.

ghost use Rattle.ipam_json.specs.Laws.{BodyIsOne, ClaimIsOne, EditIsOne, BoundsAreThose, RowsAreInOrder};

/// A body asks for one thing.
pub fn body_is_one()
    ensures { BodyIsOne }
{}

/// The body of an edit asks for one thing.
pub fn edit_is_one()
    ensures { EditIsOne }
{}

/// The body of a claim asks for one thing.
pub fn claim_is_one()
    ensures { ClaimIsOne }
{}

/// The texts of a body have the bounds of the texts of rows.
pub fn bounds_are_those()
    ensures { BoundsAreThose }
{}

/// The members of a row are in the byte order of their names.
pub fn rows_are_in_order()
    ensures { RowsAreInOrder }
{}
