//! Laws of the definitions: each function is empty, and its contract is the law.

ghost use Rattle.pool_json.specs.Laws.{ClaimIsOne, EditIsOne, RangeBodyIsOne, RecordIsOne, RowsAreInOrder};

/// The body of a range asks for one thing.
pub fn range_body_is_one()
    ensures { RangeBodyIsOne }
{}

/// The body of a claim asks for one thing.
pub fn claim_is_one()
    ensures { ClaimIsOne }
{}

/// The body of a call that records asks for one thing.
pub fn record_is_one()
    ensures { RecordIsOne }
{}

/// The body of an edit asks for one thing.
pub fn edit_is_one()
    ensures { EditIsOne }
{}

/// The members of a row are in the byte order of their names.
pub fn rows_are_in_order()
    ensures { RowsAreInOrder }
{}
