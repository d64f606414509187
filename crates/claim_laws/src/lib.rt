//! Laws of claims: each function is empty, and its contract is the law.
#![tactic(auto)]

ghost use Rattle.claim_laws.specs.Claims.{ClaimsAreNew, RefusedOnlyIfNoneFits};
ghost use Rattle.claim_laws.specs.Histories.{ClaimsNeverMeet, IdsNeverReturn};
ghost use Rattle.claim_laws.specs.Rows.{IdsAreNew, RowsStay, StepsKeepListed};

/// Each call leaves the rows of each kind in the order of their ids and below the next one, also a call that is not within its bounds.
pub fn steps_keep_listed()
    ensures { StepsKeepListed }
{}

/// A row stays as it is over each call but one that changes or deletes it; when a role is deleted, rows lose it.
pub fn rows_stay()
    ensures { RowsStay }
{}

/// A row that exists after a call has an id that existed, or a new one, which is above all that existed.
pub fn ids_are_new()
    ensures { IdsAreNew }
{}

/// No id is given twice in a history.
pub fn ids_never_return()
    ensures { IdsNeverReturn }
{}

/// An accepted claim returns the least that is free, item by item.
pub fn claims_are_new()
    ensures { ClaimsAreNew }
{}

/// A claim is refused for lack of space exactly if no other check refuses it and too little is free for all of its items.
pub fn refused_only_if_none_fits()
    ensures { RefusedOnlyIfNoneFits }
{}

/// No claim returns what an earlier call of the history made, unless an entry between the two released that.
pub fn claims_never_meet()
    ensures { ClaimsNeverMeet }
{}
