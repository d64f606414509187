//! What the definition of the items of a connection gives.
ghost use Rattle.http_session.specs.Laws.{CutAnywhere, MoreBytes, OneList, OneReading};

/// More bytes change no item that was given.
pub fn more_bytes()
    ensures { MoreBytes }
{}

/// The items of an input are those of the bytes that were read, in whatever parts, and whatever is
/// left.
pub fn cut_anywhere()
    ensures { CutAnywhere }
{}

/// The bytes have one next item, but for the corner that the parser leaves open, where two refusals
/// are right.
pub fn one_reading()
    ensures { OneReading (Unit {0}) × OneReading ⊥ }
{}

/// The bytes have one list of all their items. If they reach that corner two lists agree up to
/// it, and differ there in that one refusal alone.
pub fn one_list()
    ensures { OneList (Unit {0}) × OneList ⊥ }
{}
