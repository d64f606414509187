//! What claims of one address, one after another, get of a prefix: the calls and the laws of the command `load`.

ghost use Rattle.command_load.specs.Claims.{ClaimsInOrder};
ghost use Rattle.command_load.specs.Histories.{ClaimsOfMany};
ghost use Rattle.command_load.specs.Notes.{NotesOfOne};
ghost use Rattle.command_load.specs.Room.{LoadHasRoom};
ghost use Rattle.command_load.specs.Tallies.{TalliesOfMany};

/// A law: after the creation of a prefix and any number of claims of one address of it, whoever made them, the next claim returns the next
/// address, as long as one is left, and the figure of the prefix is the percentage of the claims.
pub fn claims_in_order()
    ensures { ClaimsInOrder }
{}

/// A law: the same of the history of many callers. An accepted claim got the address of its place, whoever made it; the entries of all
/// callers together are the history; and each accepted call takes the next of its caller's places, which stay when others call.
pub fn claims_of_many()
    ensures { ClaimsOfMany }
{}

/// A law: of callers that note how many addresses they got, the least and the greatest, the notes of all together give the number of claims of
/// the history, its first address and its last one.
pub fn tallies_of_many()
    ensures { TalliesOfMany }
{}

/// A law: what the caller of one seat notes, claim by claim, is its tally in the history that all share, once that is known.
pub fn notes_of_one()
    ensures { NotesOfOne }
{}

/// A law: the block for 1 to 100,000 claims has room for them.
pub fn load_has_room()
    ensures { LoadHasRoom }
{}
