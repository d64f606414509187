//! Laws of numbers that are given out: each function is empty, and its contract is the law.
#![tactic(auto)]

ghost use Rattle.number_laws.specs.Claims.{ClaimsAreNew};
ghost use Rattle.number_laws.specs.Edits.{EditsAreAsAsked};
ghost use Rattle.number_laws.specs.Histories.{NumbersNeverMeet};
ghost use Rattle.number_laws.specs.Records.{RecordsAreChosen};

/// No call gives out or records a number that an earlier call of the history gave out or recorded of the same pool, unless a call between
/// the two gave it back.
pub fn numbers_never_meet()
    ensures { NumbersNeverMeet }
{}

/// A claim that is not refused gets the least free numbers of its range, each once and in order, under ids that no member had.
pub fn claims_are_new()
    ensures { ClaimsAreNew }
{}

/// A call that records chosen numbers and is not refused records each with its number and its name, a number of its range that no member of the pool held,
/// under an id that no member had.
pub fn records_are_chosen()
    ensures { RecordsAreChosen }
{}

/// An edit that is not refused edits the row that was asked for, and it alone: no number changes hands.
pub fn edits_are_as_asked()
    ensures { EditsAreAsAsked }
{}
