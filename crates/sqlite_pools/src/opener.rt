//! An opener of keepers of pools over files.

ghost use Rattle.std.specs.Prelude.{◌≡◌, ℕ, ◌≤◌, ◌⊎◌, Some, None, option_map, option_copied, IfOk, OnOk, OnErr, IsErrOf};
ghost use Rattle.ipam_keeper.specs.Keeping.{Rose, IsRaised};
ghost use Rattle.pool_keeper.specs.Stored.{changed};
ghost use Rattle.pool_keeper.specs.Keeping.{IsTold, started, IsReturned};
ghost use Rattle.sqlite_pools.specs.Either.{told_of, faults_of};

use crate::connects::{ConnectsPools, CountedPools};
use ipam_keeper::keeper::KeepFault;
use pool_keeper::keeper::{PoolKeeper, PoolOpener};
use pool_keeper::memory::MemoryPools;
use pool_keeper::tables::{PoolChange, PoolTables, empty_tables};
use sqlite_calls::{StoreFault, refused};
use std::alloc::Global;
use stored_tables::tables::Text;

/// A keeper of pools that was started with a path, over its file, or without one, in memory.
#[derive(Drop)]
pub enum StorePools<F> {
    File(F),
    Memory(MemoryPools),
}

impl<F: PoolKeeper> PoolKeeper for StorePools<F> {
    ghost told = { λ k. told_of (F.told) k };

    ghost faults = { λ k. faults_of (F.faults) k };

    fn load(&mut self) -> Result<PoolTables, KeepFault> {
        match self {
            StorePools::File(keeper) => keeper.load(),
            StorePools::Memory(keeper) => keeper.load(),
        }
    }

    fn apply(&mut self, change: &PoolChange) -> Result<(), KeepFault> {
        match self {
            StorePools::File(keeper) => keeper.apply(change),
            StorePools::Memory(keeper) => keeper.apply(change),
        }
    }
}

/// An opener of keepers of pools over the files that paths name. It does not show what they hold.
#[derive(Drop)]
pub struct SqlitePoolOpener<C: ConnectsPools> {
    alloc: Global,
    connects: C,
    lent: Option<Option<Text>>,
    faults: u64,
}

impl<C: ConnectsPools> SqlitePoolOpener<C> {
    /// An opener that nothing was started with. It takes no memory, and opens nothing.
    pub fn new(alloc: Global, connects: C) -> SqlitePoolOpener<C>
        ensures { (result.faults ≡ 0) × (result.lent ≡ None) }
    {
        SqlitePoolOpener {
            alloc,
            connects,
            lent: None,
            faults: 0,
        }
    }

    /// A keeper over the file of a path, and the path again.
    fn start_at(&mut self, path: &Text) -> Result<(C::Kept, Text), StoreFault>
        ensures path { IfOk result (λ pair. pair.1 ≡ path.now) }
        ensures told { IfOk result (λ pair. C.Kept.PoolKeeper.told pair.0 ≡ None) }
        ensures fresh { IfOk result (λ pair. C.Kept.PoolKeeper.faults pair.0 ≡ 0) }
        ensures lent { self.new.lent ≡ self.old.lent }
        ensures faults { self.new.faults ≡ self.old.faults }
    {
        let copy = path.copy()?;
        let kept = self.connects.connect(path)?;
        Ok((kept, copy))
    }
}

impl<C: ConnectsPools> PoolOpener for SqlitePoolOpener<C>
where
    C::Kept: Send,
{
    type Kept = StorePools<C::Kept>;

    ghost stored = { λ o. None };

    ghost lent = { λ o. o.lent };

    ghost faults = { λ o. o.faults };

    /// A keeper over the file of this path, or without one over empty tables in memory. `Failed` is returned if the file can't be
    /// opened or something else has it open; each time it is returned the count rises by one.
    fn start(&mut self, path: Option<&Text>) -> Result<StorePools<C::Kept>, KeepFault> {
        let Some(path) = path else {
            let tables = empty_tables(self.alloc);
            self.lent = Some(None);
            return Ok(StorePools::Memory(MemoryPools::new(tables, Vec::new(self.alloc))));
        };
        match self.start_at(path) {
            Ok((keeper, path)) => {
                self.lent = Some(Some(path));
                Ok(StorePools::File(keeper))
            }
            Err(fault) => Err(refused(&mut self.faults, fault)),
        }
    }

    /// Takes back a keeper, and closes its file. It takes no memory. The count rises by the keeper's, or up to its last value.
    fn done(&mut self, kept: StorePools<C::Kept>) {
        self.lent = None;
        match kept {
            StorePools::File(keeper) => {
                self.faults = self.faults.saturating_add(keeper.failures());
                self.connects.close(keeper);
            }
            StorePools::Memory(keeper) => {
                self.faults = self.faults.saturating_add(keeper.faults());
            }
        }
    }
}
