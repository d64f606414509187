//! What a keeper and an opener do, whatever they keep tables in.

ghost use Rattle.std.specs.Prelude.{◌≡◌, ℕ, ◌≤◌, ◌⊎◌, List, Option, option_map, option_copied, IfOk, OnOk, OnErr, IsErrOf};
ghost use Rattle.stored_tables.specs.declared.tables.Tables.{Tables as StoredTables};
ghost use Rattle.stored_tables.specs.Stored.{changed, stored_version};
ghost use Rattle.stored_tables.specs.Order.{AreTables};
ghost use Rattle.ipam_keeper.specs.declared.keeper.KeepFault.TheVariants.{Memory};
ghost use Rattle.ipam_keeper.specs.Keeping.{Rose, IsRaised, IsTold, replaced_by, started, IsReturned};

use std::alloc::AllocError;
use stored_tables::tables::{Change, Tables, Text};

/// Why a keeper did not do what it was asked, or was not started.
#[derive(Clone, Copy, Debug)]
pub enum KeepFault {
    /// What it keeps could not be read or written.
    Failed,
    /// Out of memory.
    Memory,
}

impl From<AllocError> for KeepFault {
    ghost from_gives = { λ _ fault. fault ≡ Memory };

    fn from(_fault: AllocError) -> KeepFault {
        KeepFault::Memory
    }
}

/// What keeps stored tables.
pub trait Keeper {
    /// The tables that it keeps, if they are known.
    ghost told: { Self → Option StoredTables };

    /// How often it has failed. The count never falls, and rises in calls that fail alone.
    ghost faults: { Self → ℕ };

    /// The tables that it keeps, in order. It leaves them. `Err` is `Failed` only if the count rose, which it does
    /// in no other case.
    fn load(&mut self) -> Result<Tables, KeepFault>
        ensures told { IfOk result (λ tables. IsTold (told self.old) tables) }
        ensures order { IfOk result (λ tables. AreTables tables) }
        ensures stays { told self.new ≡ told self.old }
        ensures later { faults self.old ≤ faults self.new }
        ensures failed { IsErrOf result KeepFault.Failed → Rose (faults self.old) (faults self.new) }
        ensures still { IsErrOf result KeepFault.Failed ⊎ (faults self.new ≡ faults self.old) };

    /// Makes a change, whole or not at all. `Err` is `Failed` only if the count rose, which it does in no other case, and
    /// leaves the tables.
    fn apply(&mut self, change: &Change) -> Result<(), KeepFault>
        ensures ok { OnOk result (told self.new ≡ option_map (changed change.now) (told self.old)) }
        ensures err { OnErr result (told self.new ≡ told self.old) }
        ensures later { faults self.old ≤ faults self.new }
        ensures failed { IsErrOf result KeepFault.Failed → Rose (faults self.old) (faults self.new) }
        ensures still { IsErrOf result KeepFault.Failed ⊎ (faults self.new ≡ faults self.old) };

    /// Puts these tables, which are of the register's version and in order, in the place of those that it keeps, whole or not at all.
    /// They are what those become that it keeps, which are of an older version: all but the rows of ranges and the version are the same.
    /// `Err` is `Failed` only if the count rose, which it does in no other case, and leaves the tables.
    fn upgrade(&mut self, tables: &Tables) -> Result<(), KeepFault>
        requires version { tables.now.version ≡ stored_version }
        requires order { AreTables tables.now }
        ensures ok { OnOk result (told self.new ≡ option_map (replaced_by tables.now) (told self.old)) }
        ensures err { OnErr result (told self.new ≡ told self.old) }
        ensures later { faults self.old ≤ faults self.new }
        ensures failed { IsErrOf result KeepFault.Failed → Rose (faults self.old) (faults self.new) }
        ensures still { IsErrOf result KeepFault.Failed ⊎ (faults self.new ≡ faults self.old) };
}

/// What starts keepers, one at a time: over the tables of a path, or over their own empty tables.
pub trait KeeperOpener {
    type Kept: Keeper + Drop + Send;

    /// The tables under each path, if they are known.
    ghost stored: { Self → Option (List (List ℕ × StoredTables)) };

    /// The path of the keeper that was started last and is not back, if one is out; one may have no path.
    ghost lent: { Self → Option (Option (List ℕ)) };

    /// How often it or a keeper that was given back has failed. The count never falls, and rises if one of them failed alone.
    ghost faults: { Self → ℕ };

    /// A keeper over the tables of this path, which are the empty ones if it has none; without a path over empty tables. It
    /// has not failed. No path is changed, also if it is refused. `Err` is `Failed` only if the count rose, which it does in no
    /// other case, and leaves out what was out.
    fn start(&mut self, path: Option<&Text>) -> Result<Self::Kept, KeepFault>
        ensures told { IfOk result (λ kept. Self.Kept.told kept ≡ started (stored self.old) (option_copied path.entry)) }
        ensures fresh { IfOk result (λ kept. Self.Kept.faults kept ≡ 0) }
        ensures stays { stored self.new ≡ stored self.old }
        ensures ok { OnOk result (lent self.new ≡ Some (option_copied path.entry)) }
        ensures err { OnErr result (lent self.new ≡ lent self.old) }
        ensures later { faults self.old ≤ faults self.new }
        ensures failed { IsErrOf result KeepFault.Failed → Rose (faults self.old) (faults self.new) }
        ensures still { IsErrOf result KeepFault.Failed ⊎ (faults self.new ≡ faults self.old) };

    /// Takes back the keeper that was started last: its tables are then those of its path, and all other paths are as before. It
    /// takes no memory. The count rises by the keeper's, or up to its last value.
    fn done(&mut self, kept: Self::Kept)
        ensures returned { IsReturned (lent self.old) (Self.Kept.told kept) (stored self.old) (stored self.new) }
        ensures lent { lent self.new ≡ None }
        ensures raised { IsRaised (faults self.old) (Self.Kept.faults kept) (faults self.new) };
}
