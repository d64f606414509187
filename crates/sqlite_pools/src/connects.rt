//! What opens files of pools.

ghost use Rattle.std.specs.Prelude.{◌≡◌, None, IfOk};

use crate::keeper::SqlitePools;
use pool_keeper::keeper::PoolKeeper;
use sqlite::{Alter, Error};
use stored_tables::tables::Text;

/// A keeper of pools that says how often it failed.
pub trait CountedPools: PoolKeeper + Drop {
    /// How often it failed, as far as the count goes.
    fn failures(&self) -> u64
        ensures { result ≡ Self.PoolKeeper.faults self.now };
}

impl<S: Alter + Drop> CountedPools for SqlitePools<S> {
    fn failures(&self) -> u64 {
        self.faults()
    }
}

/// What opens and closes the files that paths name.
pub trait ConnectsPools {
    /// The keeper over a file. It is named as a whole, since a program can't hand a connection to a store of this trait's choice.
    type Kept: CountedPools;

    /// A keeper over the file of this path. A file that something else has open is refused, and nothing of it is changed. The
    /// keeper does not show what the file holds, and has not failed.
    fn connect(&mut self, path: &Text) -> Result<Self::Kept, Error>
        ensures told { IfOk result (λ kept. Self.Kept.PoolKeeper.told kept ≡ None) }
        ensures fresh { IfOk result (λ kept. Self.Kept.PoolKeeper.faults kept ≡ 0) };

    /// Closes the file of a keeper. What was committed stays, also if this could not put it all into one file.
    fn close(&mut self, kept: Self::Kept);
}
