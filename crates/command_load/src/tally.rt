//! What claims of one address led to.

ghost use Rattle.std.specs.Prelude.{◌≡◌, ◌+◌, ◌<◌, min, max};
ghost use Rattle.command_load.specs.Hired.{last_of_v4};

/// The greatest number of an address of IPv4.
pub const LAST: u128 = 0xFFFF_FFFF;

/// How many addresses were claimed, and the least and the greatest of them as numbers.
#[derive(Clone, Copy, Drop)]
pub struct Tally {
    pub claimed: u32,
    pub least: u128,
    pub greatest: u128,
}

impl Tally {
    /// Of no claims.
    pub fn none() -> Tally
        ensures { (result.claimed ≡ 0) × (result.least ≡ last_of_v4) × (result.greatest ≡ 0) }
    {
        Tally {
            claimed: 0,
            least: LAST,
            greatest: 0,
        }
    }

    /// With one more address.
    pub fn with(self, value: u128) -> Tally
        requires { self.claimed < 4294967295 }
        ensures { (result.claimed ≡ self.claimed + 1) × (result.least ≡ min self.least value) × (result.greatest ≡ max self.greatest value) }
    {
        Tally {
            claimed: self.claimed + 1,
            least: self.least.min(value),
            greatest: self.greatest.max(value),
        }
    }

    /// Of both.
    pub fn and(self, other: Tally) -> Tally
        requires { self.claimed + other.claimed < 4294967296 }
        ensures { (result.claimed ≡ self.claimed + other.claimed) × (result.least ≡ min self.least other.least) × (result.greatest ≡ max self.greatest other.greatest) }
    {
        Tally {
            claimed: self.claimed + other.claimed,
            least: self.least.min(other.least),
            greatest: self.greatest.max(other.greatest),
        }
    }
}
