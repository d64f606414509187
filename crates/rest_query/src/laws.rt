//! Laws of the definitions: each function is empty, and its contract is the law.

ghost use Rattle.rest_query.specs.Laws.{LimitIsOne, ListingIsOne};

/// The query of a list asks for one thing.
pub fn listing_is_one()
    ensures { ListingIsOne }
{}

/// The query of a list of available things asks for one thing.
pub fn limit_is_one()
    ensures { LimitIsOne }
{}
