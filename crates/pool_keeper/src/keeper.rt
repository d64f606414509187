//! What a keeper of pools and an opener of keepers do, whatever they keep tables in.

ghost use Rattle.std.specs.Prelude.{◌≡◌, ℕ, ◌≤◌, ◌⊎◌, List, Option, option_map, option_copied, IfOk, OnOk, OnErr, IsErrOf};
ghost use Rattle.ipam_keeper.specs.Keeping.{Rose, IsRaised};
ghost use Rattle.pool_keeper.specs.declared.tables.PoolTables.{PoolTables as StoredPools};
ghost use Rattle.pool_keeper.specs.Stored.{changed};
ghost use Rattle.pool_keeper.specs.Keeping.{IsTold, started, IsReturned};

use crate::tables::{PoolChange, PoolTables};
use ipam_keeper::keeper::KeepFault;
use stored_tables::tables::Text;

/// What keeps stored pools. Their rows may be any: whoever opens them looks whether they are lawful.
pub trait PoolKeeper {
    /// The tables that it keeps, if they are known.
    ghost told: { Self → Option StoredPools };

    /// How often it has failed. The count never falls, and rises in calls that fail alone.
    ghost faults: { Self → ℕ };

    /// The tables that it keeps. It leaves them. `Err` is `Failed` only if the count rose, which it does
    /// in no other case.
    fn load(&mut self) -> Result<PoolTables, KeepFault>
        ensures told { IfOk result (λ tables. IsTold (told self.old) tables) }
        ensures stays { told self.new ≡ told self.old }
        ensures later { faults self.old ≤ faults self.new }
        ensures failed { IsErrOf result KeepFault.Failed → Rose (faults self.old) (faults self.new) }
        ensures still { IsErrOf result KeepFault.Failed ⊎ (faults self.new ≡ faults self.old) };

    /// Makes a change, whole or not at all. `Err` is `Failed` only if the count rose, which it does in no other case, and
    /// leaves the tables.
    fn apply(&mut self, change: &PoolChange) -> Result<(), KeepFault>
        ensures ok { OnOk result (told self.new ≡ option_map (changed change.now) (told self.old)) }
        ensures err { OnErr result (told self.new ≡ told self.old) }
        ensures later { faults self.old ≤ faults self.new }
        ensures failed { IsErrOf result KeepFault.Failed → Rose (faults self.old) (faults self.new) }
        ensures still { IsErrOf result KeepFault.Failed ⊎ (faults self.new ≡ faults self.old) };
}

/// What starts keepers of pools, one at a time: over the tables of a path, or over their own empty tables.
pub trait PoolOpener {
    type Kept: PoolKeeper + Drop + Send;

    /// The tables under each path, if they are known.
    ghost stored: { Self → Option (List (List ℕ × StoredPools)) };

    /// The path of the keeper that was started last and is not back, if one is out; one may have no path.
    ghost lent: { Self → Option (Option (List ℕ)) };

    /// How often it or a keeper that was given back has failed. The count never falls, and rises if one of them failed alone.
    ghost faults: { Self → ℕ };

    /// A keeper over the tables of this path, which are the empty ones if it has none; without a path over empty tables. It
    /// has not failed. No path is changed, also if it is refused. `Err` is `Failed` only if the count rose, which it does in no
    /// other case, and leaves out what was out.
    fn start(&mut self, path: Option<&Text>) -> Result<Self::Kept, KeepFault>
        ensures told { IfOk result (λ kept. Self.Kept.told kept ≡ started (stored self.old) (option_copied path.entry)) }
        ensures fresh { IfOk result (λ kept. Self.Kept.faults kept ≡ 0) }
        ensures stays { stored self.new ≡ stored self.old }
        ensures ok { OnOk result (lent self.new ≡ Some (option_copied path.entry)) }
        ensures err { OnErr result (lent self.new ≡ lent self.old) }
        ensures later { faults self.old ≤ faults self.new }
        ensures failed { IsErrOf result KeepFault.Failed → Rose (faults self.old) (faults self.new) }
        ensures still { IsErrOf result KeepFault.Failed ⊎ (faults self.new ≡ faults self.old) };

    /// Takes back the keeper that was started last: its tables are then those of its path, and all other paths are as before. It
    /// takes no memory. The count rises by the keeper's, or up to its last value.
    fn done(&mut self, kept: Self::Kept)
        ensures returned { IsReturned (lent self.old) (Self.Kept.told kept) (stored self.old) (stored self.new) }
        ensures lent { lent self.new ≡ None }
        ensures raised { IsRaised (faults self.old) (Self.Kept.faults kept) (faults self.new) };
}
