//! Laws of the definitions: the function is empty, and its contract is the law.

ghost use Rattle.pool_rest.specs.Laws.{RequestIsOne};

/// A target has one route or none, a request asks for one thing, and a refusal of it has one answer.
pub fn request_is_one()
    ensures { RequestIsOne }
{}
