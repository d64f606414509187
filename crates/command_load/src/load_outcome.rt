//! What the claims of all workers led to.

ghost use Rattle.std.specs.Prelude.{◌≡◌, true, Some, IfSome};
ghost use Rattle.inet_num.specs.declared.Family.TheVariants.{V4};

use crate::figures::Figures;
use crate::tally::Tally;
use inet_num::{Addr, Family};

/// What the claims of all workers led to, and how much of the prefix is used then, as a whole percentage.
#[derive(Clone, Copy, Drop)]
pub struct LoadOutcome {
    pub tally: Tally,
    pub percent: u8,
}

/// Both, if each worker got its share and the percentage was given.
pub fn load_outcome_of(tally: Tally, whole: bool, percent: Option<u8>) -> Option<LoadOutcome>
    ensures { IfSome result (λ came. (whole ≡ true) × (came.tally ≡ tally) × (percent ≡ Some came.percent)) }
{
    let percent = percent?;
    if whole {
        Some(LoadOutcome { tally, percent })
    } else {
        None
    }
}

/// The figures of it, with the number of accepted changes. None if a number is none of an address.
pub fn figures_of(came: LoadOutcome, entries: u64) -> Option<Figures>
    ensures { IfSome result (λ f. f ≡ record {
      claimed = came.tally.claimed;
      first = record { family = V4; value = came.tally.least };
      last = record { family = V4; value = came.tally.greatest };
      percent = came.percent;
      entries = entries;
    }) }
{
    Some(Figures {
        claimed: came.tally.claimed,
        first: Addr::of(Family::V4, came.tally.least)?,
        last: Addr::of(Family::V4, came.tally.greatest)?,
        percent: came.percent,
        entries,
    })
}
